//! The memory of one partition.

ghost use Rattle.std.specs.Prelude.{◌≡◌, ◌≤◌, All, IfOk, Some, [], true, false, nat_lt, length, map, option_map, slice_get, slice_set};
ghost use Rattle.std.specs.Option.{ok_or};
ghost use Rattle.apex_types.specs.declared.codes.ErrorKind.{ErrorKind};
ghost use Rattle.regions.specs.Space.{Space, seen, stacks_of, put, planned, loaded, is_within, allowed, stored, zeros};

use crate::plan::MemoryPlan;
use crate::reach::Reach;
use crate::region::Region;
use apex_types::ErrorKind;
use std::alloc::{AllocError, Global};
use std::marker::Model;
use std::mem;

/// The words of one partition: its data, and the stacks of its runners. One of the stacks is the
/// own stack of the current runner; the others cannot be reached until they are selected.
#[derive(Drop)]
pub struct PartitionMem {
    reach: Reach,
    /// All stacks, with none in the place of the own one.
    rest: Vec<Vec<i64>>,
    own: usize,
}

impl Model for PartitionMem {
    ghost Value = { Space };

    ghost view = { λ m. record { words = m.reach.words.items; stack = m.reach.stack.items; rest = map (λ v. v.items) m.rest.items; own = m.own } };

    ghost invariant = { λ m. (slice_get (map (λ v. v.items) m.rest.items) m.own ≡ Some []) × All (λ v. length v.items ≤ 65_535) m.rest.items };
}

/// Stacks of zeros, of these lengths.
fn zeroed_stacks(alloc: Global, lengths: &[u16]) -> Result<Vec<Vec<i64>>, AllocError>
    ensures words { IfOk result
        (λ stacks. map (λ v. v.items) stacks.items ≡ map zeros lengths.now) }
    ensures small { IfOk result (λ stacks. All (λ v. length v.items ≤ 65_535) stacks.items) }
{
    let mut stacks = Vec::with_capacity(alloc, lengths.len())?;
    for length in lengths {
        stacks.push(vec![in alloc; 0; usize::from(*length)]?)?;
    }
    Ok(stacks)
}

/// The word at a place. The error is a memory violation if `words` has no such place.
fn word_at(words: &[i64], place: usize) -> Result<i64, ErrorKind>
    ensures { result ≡ ok_or (slice_get words.now place) ErrorKind.MemoryViolation }
{
    words.get(place).copied().ok_or(ErrorKind::MemoryViolation)
}

impl PartitionMem {
    ghost use Rattle.std.specs.Borrow.{sem, Lends};
    ghost use Rattle.regions.specs.contracts.partition_mem.PartitionMem.{the_row};
    ghost use Rattle.regions.specs.contracts.reach.Reach.{the_row as reach_row};

    /// The initial data and stacks of zeros; the first stack is selected. Fails only if memory runs
    /// out.
    pub(crate) fn new(alloc: Global, plan: &MemoryPlan) -> Result<PartitionMem, AllocError>
        ensures { IfOk result (λ memory. memory ≡ planned plan.now) }
    {
        let words = Vec::from_slice(alloc, &plan.initial)?;
        let mut rest = zeroed_stacks(alloc, &plan.stacks)?;
        let stack = mem::replace(&mut rest[0], Vec::new(alloc));
        Ok(PartitionMem {
            reach: Reach { words, stack },
            rest,
            own: 0,
        })
    }

    /// The word at an offset of a region. [`ErrorKind::MemoryViolation`]: the region may not be
    /// read, or has no such offset.
    pub fn load(&self, region: Region, offset: usize) -> Result<i64, ErrorKind>
        ensures { result ≡ ok_or (loaded region offset self.now) ErrorKind.MemoryViolation }
    {
        if !region.is_readable() {
            return Err(ErrorKind::MemoryViolation);
        }
        match region {
            Region::Code => Err(ErrorKind::MemoryViolation),
            Region::Data => word_at(&self.reach.words, offset),
            Region::Stack => word_at(&self.reach.stack, offset),
        }
    }

    /// Changes the word at a place of the data. The error is a memory violation if the data has no
    /// such place.
    #[tactic(auto, using(crate::proofs::Lists::stacks))]
    fn store_data(&mut self, place: usize, word: i64) -> Result<(), ErrorKind>
        ensures result { result ≡ allowed (nat_lt place (length self.old.words)) }
        ensures words { self.new
            ≡ put self.old self.old.stack (slice_set self.old.words place word) }
    {
        if place >= self.reach.words.len() {
            return Err(ErrorKind::MemoryViolation);
        }
        self.reach.words[place] = word;
        Ok(())
    }

    /// Changes the word at a place of the own stack. The error is a memory violation if the stack
    /// has no such place.
    #[tactic(auto, using(crate::proofs::Lists::stacks))]
    fn store_stack(&mut self, place: usize, word: i64) -> Result<(), ErrorKind>
        ensures result { result ≡ allowed (nat_lt place (length self.old.stack)) }
        ensures words { self.new
            ≡ put self.old (slice_set self.old.stack place word) self.old.words }
    {
        if place >= self.reach.stack.len() {
            return Err(ErrorKind::MemoryViolation);
        }
        self.reach.stack[place] = word;
        Ok(())
    }

    /// Changes the word at an offset of a region. [`ErrorKind::MemoryViolation`]: the region may
    /// not be written, or has no such offset; then nothing changes.
    #[tactic(auto, using(crate::proofs::Lists::stacks))]
    pub fn store(&mut self, region: Region, offset: usize, word: i64) -> Result<(), ErrorKind>
        ensures result { result ≡ allowed (is_within region offset self.old) }
        ensures words { self.new ≡ stored region offset word self.old }
    {
        if !region.is_writable() {
            return Err(ErrorKind::MemoryViolation);
        }
        match region {
            Region::Code => Err(ErrorKind::MemoryViolation),
            Region::Data => self.store_data(offset, word),
            Region::Stack => self.store_stack(offset, word),
        }
    }

    /// Lends the words that the current runner may touch. After the loan they are as the borrower
    /// left them, and the other stacks are unchanged.
    pub fn reach(&mut self) -> &mut Reach
        ensures* back { sem 𝓛 (Lends the_row reach_row self.entry result (λ r. put self.entry.now r.stack.items r.words.items)) }
        ensures words { result.now.words.items ≡ self.old.words }
        ensures stack { result.now.stack.items ≡ self.old.stack }
    {
        &mut self.reach
    }

    /// The data.
    pub fn data(&self) -> &[i64]
        ensures { result.now ≡ self.now.words }
    {
        &self.reach.words
    }

    /// The stack at a place, if there is such a stack.
    pub fn stack(&self, place: usize) -> Option<&[i64]>
        ensures { option_map (λ stack. stack.now) result ≡ slice_get (stacks_of self.now) place }
    {
        if place == self.own {
            return Some(&self.reach.stack);
        }
        match self.rest.get(place) {
            Some(stack) => Some(stack),
            None => None,
        }
    }

    /// The number of words of the data.
    pub fn data_len(&self) -> usize
        ensures { result ≡ length self.now.words }
    {
        self.reach.words.len()
    }

    /// The number of words of the own stack, at most 65,535.
    pub fn stack_len(&self) -> usize
        ensures words { result ≡ length self.now.stack }
        ensures most { result ≤ 65_535 }
    {
        self.reach.stack.len()
    }

    /// Replaces the data by these words, whose number is the same.
    pub fn restore(&mut self, words: &[i64])
        requires { length words.now ≡ length self.old.words }
        ensures { self.new ≡ put self.old self.old.stack words.now }
    {
        self.reach.words.copy_from_slice(words);
    }

    /// All words of the own stack become 0.
    #[tactic(auto, using(crate::proofs::Lists::stacks))]
    pub fn clear_stack(&mut self)
        ensures { self.new ≡ put self.old (zeros (length self.old.stack)) self.old.words }
    {
        self.reach.stack.fill(0);
    }

    /// Selects the stack at a place as the own one. Returns false, and changes nothing, if there is
    /// no such stack.
    #[tactic(auto, using(crate::proofs::Lists::stacks, crate::proofs::Lists::selected_again))]
    pub fn select(&mut self, place: usize) -> bool
        ensures there { result ≡ nat_lt place (length self.old.rest) }
        ensures selected { result ≡ true
            → self.new ≡ seen self.old.words (stacks_of self.old) place }
        ensures same { result ≡ false → self.new ≡ self.old }
    {
        if place >= self.rest.len() {
            return false;
        }
        // Most who run go on where they were.
        if place == self.own {
            return true;
        }
        mem::swap(&mut self.reach.stack, &mut self.rest[self.own]);
        mem::swap(&mut self.reach.stack, &mut self.rest[place]);
        self.own = place;
        true
    }
}
