//! The names of a module table, and the numbers that they denote.

ghost use Rattle.std.specs.Prelude.{◌≡◌, ◌≤◌, ◌||◌, ◌++◌, ◌∷◌, map, option_map, length, is_none};
ghost use Rattle.std.specs.List.{list_any};
ghost use Rattle.apex_types.specs.Limits.{MOST_PORTS};
ghost use Rattle.module_meaning.specs.TableRules.{same};
ghost use Rattle.module_meaning.specs.Table.{has_twice};
ghost use Rattle.module_meaning.specs.TableRules.{has_same_names, has_unknown_name, partition_number, port_number, end_of, number_from, is_unknown_window, has_unknown_end};
ghost use Rattle.window_table.specs.Views.{port_text, partition_text, window_text, channel_text, table_text};

use crate::few::FewPartitions;
use crate::written::{WrittenChannel, WrittenPartition, WrittenPort, WrittenTable, WrittenWindow};
use apex_types::{ChannelEnd, PartitionId, PortId};

#[tactic(auto, using(std::proofs::lemmas::List::drop_more))]
fn has_port(ports: &[WrittenPort<'_>], name: &str) -> bool
    ensures { result ≡ list_any (λ b. same name.now b.name) (map port_text ports.now) }
{
    for port in ports {
        if name == port.name {
            return true;
        }
    }
    false
}

#[tactic(auto, using(std::proofs::lemmas::List::drop_more), unfolding(module_meaning::specs::Table::has_twice))]
fn has_same_ports(ports: &[WrittenPort<'_>]) -> bool
    ensures { result ≡ has_twice (λ a b. same a.name b.name) (map port_text ports.now) }
{
    for (place, port) in ports.iter().enumerate() {
        if has_port(&ports[place + 1..], port.name) {
            return true;
        }
    }
    false
}

#[tactic(auto, using(std::proofs::lemmas::List::drop_more))]
fn has_partition(partitions: &[WrittenPartition<'_>], name: &str) -> bool
    ensures { result ≡ list_any (λ b. same name.now b.name) (map partition_text partitions.now) }
{
    for partition in partitions {
        if name == partition.name {
            return true;
        }
    }
    false
}

#[tactic(auto, using(std::proofs::lemmas::List::drop_more), unfolding(module_meaning::specs::Table::has_twice))]
fn has_same_partitions(partitions: &[WrittenPartition<'_>]) -> bool
    ensures { result ≡ has_twice (λ a b. same a.name b.name) (map partition_text partitions.now) }
{
    for (place, partition) in partitions.iter().enumerate() {
        if has_partition(&partitions[place + 1..], partition.name) {
            return true;
        }
    }
    false
}

#[tactic(auto, using(std::proofs::lemmas::List::drop_more))]
fn has_channel(channels: &[WrittenChannel<'_>], name: &str) -> bool
    ensures { result ≡ list_any (λ b. same name.now b.name) (map channel_text channels.now) }
{
    for channel in channels {
        if name == channel.name {
            return true;
        }
    }
    false
}

#[tactic(auto, using(std::proofs::lemmas::List::drop_more), unfolding(module_meaning::specs::Table::has_twice))]
fn has_same_channels(channels: &[WrittenChannel<'_>]) -> bool
    ensures { result ≡ has_twice (λ a b. same a.name b.name) (map channel_text channels.now) }
{
    for (place, channel) in channels.iter().enumerate() {
        if has_channel(&channels[place + 1..], channel.name) {
            return true;
        }
    }
    false
}

#[tactic(auto, using(std::proofs::lemmas::List::drop_more))]
fn has_same_ports_somewhere(partitions: &[WrittenPartition<'_>]) -> bool
    ensures { result
        ≡ list_any (λ p. has_twice (λ a b. same a.name b.name) p.ports)
        (map partition_text partitions.now) }
{
    for partition in partitions {
        if has_same_ports(partition.ports.as_slice()) {
            return true;
        }
    }
    false
}

/// Returns true if two partitions, two channels or two ports of a partition have the same name.
#[tactic(auto, unfolding(module_meaning::specs::TableRules::has_same_names))]
pub fn has_same_names(table: &WrittenTable<'_>) -> bool
    ensures { result ≡ has_same_names (table_text table.now) }
{
    has_same_partitions(table.partitions.as_slice())
        || has_same_channels(table.channels.as_slice())
        || has_same_ports_somewhere(table.partitions.as_slice())
}

/// The number of the partition with a name; `None` if no partition has it.
#[tactic(auto, using(std::proofs::lemmas::List::drop_more), unfolding(module_meaning::specs::TableRules::number_from))]
pub fn partition_number(partitions: FewPartitions<'_>, name: &str) -> Option<PartitionId>
    ensures { option_map (λ n. n.0) result
        ≡ partition_number (map partition_text partitions.entry.rows.now) name.now }
{
    let mut number: u8 = 1;
    for partition in partitions.rows {
        if partition.name == name {
            return Some(PartitionId(number));
        }
        number += 1;
    }
    None
}

/// Returns true if a text is the name of a port of a partition, as `partition.port`.
#[tactic(auto, using(crate::proofs::PortNames::same_after))]
pub fn is_port_name(text: &str, partition: &str, port: &str) -> bool
    ensures { result ≡ same text.now (partition.now ++ 46 ∷ port.now) }
{
    match text.as_bytes().strip_prefix(partition.as_bytes()) {
        Some(rest) => match rest.split_first() {
            Some((dot, name)) => *dot == b'.' && name == port.as_bytes(),
            None => false,
        },
        None => false,
    }
}

/// The number of the port of a partition that a text names.
#[tactic(auto, using(std::proofs::lemmas::List::drop_more), unfolding(module_meaning::specs::TableRules::number_from))]
fn port_number(partition: &WrittenPartition<'_>, text: &str) -> Option<PortId>
    requires { length partition.now.ports.items ≤ MOST_PORTS }
    ensures { option_map (λ n. n.0) result ≡ port_number (partition_text partition.now) text.now }
{
    let mut number: u8 = 1;
    for port in partition.ports.as_slice() {
        if is_port_name(text, partition.name, port.name) {
            return Some(PortId(number));
        }
        number += 1;
    }
    None
}

/// The end of a channel that a text names: a port or the device.
#[tactic(auto, using(std::proofs::lemmas::List::drop_more), unfolding(module_meaning::specs::TableRules::end_of, module_meaning::specs::TableRules::port_from))]
pub fn channel_end(partitions: FewPartitions<'_>, text: &str) -> Option<ChannelEnd>
    ensures { result ≡ end_of (map partition_text partitions.entry.rows.now) text.now }
{
    if text == "DEVICE" {
        return Some(ChannelEnd::Device);
    }
    let mut number: u8 = 1;
    for partition in partitions.rows {
        if let Some(port) = port_number(partition, text) {
            return Some(ChannelEnd::Port(PartitionId(number), port));
        }
        number += 1;
    }
    None
}

#[tactic(auto, using(std::proofs::lemmas::List::drop_more))]
fn has_unknown_text(partitions: FewPartitions<'_>, texts: &[&str]) -> bool
    ensures { result
        ≡ list_any (λ d. is_none (end_of (map partition_text partitions.entry.rows.now) d))
        (map (λ d. d.now) texts.now) }
{
    for text in texts {
        if channel_end(partitions, text).is_none() {
            return true;
        }
    }
    false
}

fn has_unknown_end(partitions: FewPartitions<'_>, channel: &WrittenChannel<'_>) -> bool
    ensures { result
        ≡ has_unknown_end (map partition_text partitions.entry.rows.now)
        (channel_text channel.now) }
{
    channel_end(partitions, channel.source).is_none()
        || has_unknown_text(partitions, channel.destinations.as_slice())
}

#[tactic(auto, using(std::proofs::lemmas::List::drop_more))]
fn has_unknown_ends(partitions: FewPartitions<'_>, channels: &[WrittenChannel<'_>]) -> bool
    ensures { result
        ≡ list_any (has_unknown_end (map partition_text partitions.entry.rows.now))
        (map channel_text channels.now) }
{
    for channel in channels {
        if has_unknown_end(partitions, channel) {
            return true;
        }
    }
    false
}

#[tactic(auto, using(std::proofs::lemmas::List::drop_more))]
fn has_unknown_partition(partitions: FewPartitions<'_>, windows: &[WrittenWindow<'_>]) -> bool
    ensures { result
        ≡ list_any (is_unknown_window (map partition_text partitions.entry.rows.now))
        (map window_text windows.now) }
{
    for window in windows {
        if partition_number(partitions, window.partition).is_none() {
            return true;
        }
    }
    false
}

/// Returns true if a window's partition or an end of a channel does not exist.
#[tactic(auto, unfolding(module_meaning::specs::TableRules::has_unknown_name))]
pub fn has_unknown_name(partitions: FewPartitions<'_>, table: &WrittenTable<'_>) -> bool
    requires { partitions.rows.now ≡ table.now.partitions.items }
    ensures { result ≡ has_unknown_name (table_text table.now) }
{
    has_unknown_partition(partitions, table.windows.as_slice())
        || has_unknown_ends(partitions, table.channels.as_slice())
}
