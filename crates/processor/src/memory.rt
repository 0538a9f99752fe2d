//! Loads and stores: the data, the frame, the arrays and the regions.

use crate::access::{element, element_place, load, load_at};
use crate::registers::Registers;
use crate::turn::Turn;
use apex_types::ErrorKind;
use regions::{Reach, Region};

impl Registers {
    ghost use Rattle.std.specs.Prelude.{true, ◌≡◌, ◌+◌, ◌-◌, ◌<◌, ◌≤◌, ◌^◌, []};
    ghost use Rattle.regions.specs.Rights.{number_of};
    ghost use Rattle.machine_meaning.specs.MachineControl.{executes, stored, changes_data, changes_stack, loads_region, stores_region};
    ghost use Rattle.processor.specs.Turns.{after, does, is_done};
    ghost use Rattle.apex_types.specs.declared.instruction.Instr.{Instr};

    /// LDG: a word of the data.
    pub(crate) fn load_data(&mut self, reach: &mut Reach, x: u32) -> Turn
        requires next { self.old.pc + 1 < 2 ^ 32 }
        ensures effect { after result self.new reach.new
            ≡ does (executes [] (Instr.LoadData x)) self.old reach.old }
        ensures done { is_done result ≡ true }
    {
        let v = load(&reach.words, x as usize);
        self.push_or(reach, ErrorKind::MemoryViolation, self.sp, v)
    }

    /// Changes a word of the data, and pops `popped` operands.
    fn store_word(&mut self, reach: &mut Reach, popped: u32, place: usize, v: i64) -> Turn
        requires next { self.old.pc + 1 < 2 ^ 32 }
        requires operands { popped ≤ self.old.sp }
        ensures effect { after result self.new reach.new
            ≡ does (changes_data popped (stored reach.old.words.items place v)) self.old reach.old }
        ensures done { is_done result ≡ true }
    {
        if place >= reach.words.len() {
            return Turn::Fault(ErrorKind::MemoryViolation);
        }
        reach.words[place] = v;
        self.go_on(self.pc + 1, self.sp - popped)
    }

    /// Changes a word of the own stack, and pops `popped` operands.
    #[tactic(auto, using(crate::proofs::Stack::words))]
    fn store_own(&mut self, reach: &mut Reach, popped: u32, place: usize, v: i64) -> Turn
        requires next { self.old.pc + 1 < 2 ^ 32 }
        requires operands { popped ≤ self.old.sp }
        ensures effect { after result self.new reach.new
            ≡ does (changes_stack popped (stored reach.old.stack.items place v))
            self.old reach.old }
        ensures done { is_done result ≡ true }
    {
        if place >= reach.stack.len() {
            return Turn::Fault(ErrorKind::MemoryViolation);
        }
        reach.stack[place] = v;
        self.go_on(self.pc + 1, self.sp - popped)
    }

    /// STG: pops into a word of the data.
    pub(crate) fn store_data(&mut self, reach: &mut Reach, x: u32) -> Turn
        requires next { self.old.pc + 1 < 2 ^ 32 }
        ensures effect { after result self.new reach.new
            ≡ does (executes [] (Instr.StoreData x)) self.old reach.old }
        ensures done { is_done result ≡ true }
    {
        if self.sp <= self.fp {
            return Turn::Fault(ErrorKind::IllegalRequest);
        }
        let v = self.top(reach);
        self.store_word(reach, 1, x as usize, v)
    }

    /// LDL: a word of the frame.
    pub(crate) fn load_local(&mut self, reach: &mut Reach, x: u32) -> Turn
        requires next { self.old.pc + 1 < 2 ^ 32 }
        ensures effect { after result self.new reach.new
            ≡ does (executes [] (Instr.LoadLocal x)) self.old reach.old }
        ensures done { is_done result ≡ true }
    {
        let v = load(&reach.stack, self.fp as usize + x as usize);
        self.push_or(reach, ErrorKind::MemoryViolation, self.sp, v)
    }

    /// STL: pops into a word of the frame.
    pub(crate) fn store_local(&mut self, reach: &mut Reach, x: u32) -> Turn
        requires next { self.old.pc + 1 < 2 ^ 32 }
        ensures effect { after result self.new reach.new
            ≡ does (executes [] (Instr.StoreLocal x)) self.old reach.old }
        ensures done { is_done result ≡ true }
    {
        if self.sp <= self.fp {
            return Turn::Fault(ErrorKind::IllegalRequest);
        }
        let place = self.fp as usize + x as usize;
        let v = self.top(reach);
        self.store_own(reach, 1, place, v)
    }

    /// LDA: an element of the array of `size` words at `x`.
    pub(crate) fn load_element(&mut self, reach: &mut Reach, x: u32, size: i64) -> Turn
        requires next { self.old.pc + 1 < 2 ^ 32 }
        ensures effect { after result self.new reach.new
            ≡ does (executes [] (Instr.LoadElement x size)) self.old reach.old }
        ensures done { is_done result ≡ true }
    {
        if self.sp <= self.fp {
            return Turn::Fault(ErrorKind::IllegalRequest);
        }
        let v = element(&reach.words, x, size, self.top(reach));
        self.push_or(reach, ErrorKind::MemoryViolation, self.sp - 1, v)
    }

    /// STA: pops into an element of the array of `size` words at `x`.
    pub(crate) fn store_element(&mut self, reach: &mut Reach, x: u32, size: i64) -> Turn
        requires next { self.old.pc + 1 < 2 ^ 32 }
        ensures effect { after result self.new reach.new
            ≡ does (executes [] (Instr.StoreElement x size)) self.old reach.old }
        ensures done { is_done result ≡ true }
    {
        if self.sp < self.fp + 2 {
            return Turn::Fault(ErrorKind::IllegalRequest);
        }
        let v = self.top(reach);
        match element_place(&reach.words, x, size, self.below_top(reach)) {
            Some(place) => self.store_word(reach, 2, place, v),
            None => Turn::Fault(ErrorKind::MemoryViolation),
        }
    }

    /// The effect of LDR for a known region.
    fn load_known(&mut self, reach: &mut Reach, region: Region) -> Turn
        requires next { self.old.pc + 1 < 2 ^ 32 }
        requires operands { 1 ≤ self.old.sp }
        ensures effect { after result self.new reach.new
            ≡ does (loads_region (number_of region)) self.old reach.old }
        ensures done { is_done result ≡ true }
    {
        let address = self.top(reach);
        let v = match region {
            Region::Code => None,
            Region::Data => load_at(&reach.words, address),
            Region::Stack => load_at(&reach.stack, address),
        };
        self.push_or(reach, ErrorKind::MemoryViolation, self.sp - 1, v)
    }

    /// The effect of STR for a known region.
    fn store_known(&mut self, reach: &mut Reach, region: Region) -> Turn
        requires next { self.old.pc + 1 < 2 ^ 32 }
        requires operands { 2 ≤ self.old.sp }
        ensures effect { after result self.new reach.new
            ≡ does (stores_region (number_of region)) self.old reach.old }
        ensures done { is_done result ≡ true }
    {
        let address = self.below_top(reach);
        if address < 0 {
            return Turn::Fault(ErrorKind::MemoryViolation);
        }
        let place = address.unsigned_abs() as usize;
        let v = self.top(reach);
        match region {
            Region::Code => Turn::Fault(ErrorKind::MemoryViolation),
            Region::Data => self.store_word(reach, 2, place, v),
            Region::Stack => self.store_own(reach, 2, place, v),
        }
    }

    /// LDR: the word of a region at the address popped.
    #[tactic(auto, using(crate::proofs::Stack::regions))]
    pub(crate) fn load_region(&mut self, reach: &mut Reach, x: u32) -> Turn
        requires next { self.old.pc + 1 < 2 ^ 32 }
        ensures effect { after result self.new reach.new
            ≡ does (executes [] (Instr.LoadRegion x)) self.old reach.old }
        ensures done { is_done result ≡ true }
    {
        let Some(region) = Region::from_number(x) else {
            return Turn::Fault(ErrorKind::IllegalRequest);
        };
        if self.sp <= self.fp {
            return Turn::Fault(ErrorKind::IllegalRequest);
        }
        self.load_known(reach, region)
    }

    /// STR: pops a word into the word of a region at the address popped below it.
    #[tactic(auto, using(crate::proofs::Stack::regions))]
    pub(crate) fn store_region(&mut self, reach: &mut Reach, x: u32) -> Turn
        requires next { self.old.pc + 1 < 2 ^ 32 }
        ensures effect { after result self.new reach.new
            ≡ does (executes [] (Instr.StoreRegion x)) self.old reach.old }
        ensures done { is_done result ≡ true }
    {
        let Some(region) = Region::from_number(x) else {
            return Turn::Fault(ErrorKind::IllegalRequest);
        };
        if self.sp < self.fp + 2 {
            return Turn::Fault(ErrorKind::IllegalRequest);
        }
        self.store_known(reach, region)
    }
}
