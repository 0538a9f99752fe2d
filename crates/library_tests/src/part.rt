//! A runner with its script.

ghost use Rattle.std.specs.Prelude.{◌≡◌, ◌<◌, ℤ, List, Some, None, true, length};
ghost use Rattle.kernel_meaning.specs.Partition.{ticked};
ghost use Rattle.kernel_laws.specs.Bursts.{burst, is_nothing};
ghost use Rattle.processor.specs.Views.{asks_of};
ghost use Rattle.library_tests.specs.Plays.{control_of, script_of};
ghost use Rattle.library_tests.specs.Scripts.{script_engine};

use processor::{Burst, Outcome};

/// A runner with its script.
#[derive(Drop)]
pub struct Part {
    /// The outcomes of its ticks, one after the other. After the last one it is busy.
    pub(crate) outcomes: Vec<Outcome>,
    /// The place of the next outcome; `None` if nothing is left to do.
    pub(crate) next: Option<usize>,
}

impl Part {
    /// A runner that is not begun.
    pub fn new(outcomes: Vec<Outcome>) -> Part
        ensures control { control_of result ≡ None }
        ensures outcomes { result.outcomes ≡ outcomes }
    {
        Part {
            outcomes,
            next: None,
        }
    }

    /// The script begins again.
    pub(crate) fn begin(&mut self)
        ensures control { control_of self.new ≡ Some (script_of self.old) }
        ensures script { script_of self.new ≡ script_of self.old }
    {
        self.next = Some(0);
    }

    /// Ends the script: nothing is left to do.
    pub(crate) fn stop(&mut self)
        ensures control { control_of self.new ≡ None }
        ensures script { script_of self.new ≡ script_of self.old }
    {
        self.next = None;
    }

    /// Plays the next outcome of the script; `Busy` if nothing is left to do.
    #[tactic(auto, using(std::proofs::lemmas::List::drop_more))]
    pub(crate) fn tick(&mut self) -> Outcome
        ensures control { (scripts : _) (words : List ℤ)
            → control_of self.new
            ≡ (ticked (script_engine scripts) (control_of self.old) words).control }
        ensures asks { (scripts : _) (words : List ℤ)
            → asks_of result ≡ (ticked (script_engine scripts) (control_of self.old) words).asks }
        ensures script { script_of self.new ≡ script_of self.old }
    {
        let Some(place) = self.next else {
            return Outcome::Busy;
        };
        if place >= self.outcomes.len() {
            return Outcome::Busy;
        }
        let outcome = self.outcomes[place];
        self.next = Some(place + 1);
        outcome
    }

    /// Plays `k` ticks of the script, or those up to the first that asks for something.
    pub(crate) fn advance(&mut self, k: u32) -> Burst
        ensures burst { (scripts : _) (words : List ℤ)
            → record {
              control = control_of self.new;
              words = words;
              told = asks_of result.outcome;
              ticks = result.ticks;
            }
            ≡ burst (ticked (script_engine scripts)) k (control_of self.old) words }
        ensures script { script_of self.new ≡ script_of self.old }
        ensures whole { is_nothing (asks_of result.outcome) ≡ true → result.ticks ≡ k }
    {
        let mut left = k;
        while left > 0 {
            let outcome = self.tick();
            left -= 1;
            if !outcome.is_quiet() {
                return Burst {
                    ticks: k - left,
                    outcome,
                };
            }
        }
        Burst {
            ticks: k,
            outcome: Outcome::Busy,
        }
    }
}
