//! What the kernel of a partition does: its processes, objects, ports and errors, the services on them, and one
//! tick.
#![tactic(auto)]
