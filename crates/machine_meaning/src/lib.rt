//! What an image is, how the processor runs it, and what it means: the trace.
#![tactic(auto)]
