//! The words that a row is asked for.

ghost use Rattle.std.specs.Prelude.{◌≡◌, ◌++◌, ℕ, List, OnOk, map, option_copied};
ghost use Rattle.apex_types.specs.Line.{space};
ghost use Rattle.image.specs.Items.{item_of};
ghost use Rattle.kernel_meaning.specs.Partition.{Member};
ghost use Rattle.machine_meaning.specs.Image.{Item};
ghost use Rattle.machine_meaning.specs.MachineControl.{MachineControl};
ghost use Rattle.module.specs.Asked as meant;
ghost use Rattle.module.specs.Kinds.{AreOf, IsInItsPart};
ghost use Rattle.partition.specs.Members.{member_of};
ghost use Rattle.partition_base.specs.contracts.machine.PartitionProcessorExecutor.TheImpl.{ghosts as machine};
ghost use Rattle.state_rows.specs.Rows.{rows_in};
ghost use Rattle.state_rows.specs.States.{member_rows};
ghost use Rattle.text_lines.specs.Pieces.{pieces_of};

use image::PartitionItem;
use partition::Partition;
use partition_base::PartitionProcessor;
use regions::PartitionMem;
use state_rows::Form;
use state_view::{Part, part_with, write_part};
use std::alloc::AllocError;
use text_lines::split_at;

/// Whether a word of a line matches the word that is asked for; `_` matches any word.
pub fn stands_for(asked: &str, word: &[u8]) -> bool
    ensures { result ≡ meant.stands_for asked.now word.now }
{
    asked.as_bytes() == b"_".as_slice() || asked.as_bytes() == word
}

/// Whether a word that is asked for matches any words.
fn is_gap(asked: &str) -> bool
    ensures { result ≡ meant.is_gap asked.now }
{
    asked.as_bytes() == b"..".as_slice()
}

/// Whether the words of this text, if it is there, begin with those that are asked for.
fn begins_with(asked: &[&str], text: Option<&[u8]>) -> bool
    ensures { result
        ≡ meant.begin_with (map (λ a. a.now) asked.now) (pieces_of space (option_copied text.entry)) }
{
    let Some((first, rest)) = asked.split_first() else {
        return true;
    };
    if is_gap(first) && begins_with(rest, text) {
        return true;
    }
    let Some(text) = text else {
        return false;
    };
    let (word, behind) = split_at(b' ', text);
    if is_gap(first) {
        return begins_with(asked, behind);
    }
    stands_for(first, word) && begins_with(rest, behind)
}

/// Whether a row of the text begins with the words that are asked for; `_` matches any word, and `..`
/// any words.
pub fn has_row(asked: &[&str], text: &[u8]) -> bool
    ensures { result ≡ meant.has_row (map (λ a. a.now) asked.now) text.now }
{
    let mut rest = text;
    while let (line, Some(behind)) = split_at(b'\n', rest) {
        if begins_with(asked, Some(line)) {
            return true;
        }
        rest = behind;
    }
    false
}

/// Whether the first of these words may be the name of a partition.
fn asks_partition(asked: &[&str], name: &[u8]) -> bool
    ensures { result ≡ meant.asks_partition (map (λ a. a.now) asked.now) name.now }
{
    match asked.split_first() {
        Some((first, _)) => is_gap(first) || stands_for(first, name),
        None => true,
    }
}

/// The part of a partition with the rows of the kind that the first of these words names; all rows, if
/// any kind will do.
fn part_of_kind(asked: &[&str]) -> Part
    ensures { result ≡ meant.part_of_kind (map (λ a. a.now) asked.now) }
{
    let Some((kind, _)) = asked.split_first() else {
        return Part::All;
    };
    if is_gap(kind) || kind.as_bytes() == b"_".as_slice() {
        return Part::All;
    }
    part_with(kind)
}

/// The part of a partition in which a row may begin with these words.
fn asked_part(asked: &[&str]) -> Part
    ensures { result ≡ meant.asked_part (map (λ a. a.now) asked.now) }
{
    let Some((first, rest)) = asked.split_first() else {
        return Part::All;
    };
    if is_gap(first) {
        return Part::All;
    }
    part_of_kind(rest)
}

/// Appends the rows of a partition among which one with these words is looked for: with no words all.
pub(crate) fn write_asked(
    form: Form,
    asked: &[&str],
    item: &PartitionItem,
    partition: &Partition<PartitionProcessor>,
    memory: &PartitionMem,
    text: &mut Vec<u8>,
) -> Result<(), AllocError>
    ensures { OnOk result
        (text.new.items
        ≡ text.old.items
        ++ rows_in form
        (meant.asked_rows (map (λ a. a.now) asked.now) (item_of item.now)
        (member_of machine partition.now memory.now))) }
{
    let name = partition.kernel().name();
    if !asks_partition(asked, name.as_bytes()) {
        return Ok(());
    }
    write_part(form, asked_part(asked), item, partition, memory, text)
}

/// Each row of a kind is in the part of this kind, and each row of a partition names it first.
#[tactic(auto, using(crate::proofs::Heads::in_its_part, crate::proofs::Heads::are_of))]
pub fn rows_are_in_their_parts()
    ensures part { (key : List ℕ) → IsInItsPart key }
    ensures partition { (i : Item) (x : Member MachineControl)
        → AreOf x.world.kernel.fixed.name (member_rows i x) }
{}
