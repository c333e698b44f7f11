// What a refusal tells of a fault, and the line that is printed for it.
ghost use Rattle.std.specs.Prelude.{◌≡◌, ℕ, Some};
ghost use Rattle.faults.specs.declared.fault.Finder.{Finder};
ghost use Rattle.faults.specs.Printed.{refusal_line};

use crate::fault::Finder;
use std::fmt;

// Every fault has a number, a place and a finder.
pub trait Fault {
    ghost number: { Self → ℕ };

    ghost place: { Self → ℕ };

    ghost finder: { Self → Finder };

    // The number that a refusal prints.
    fn number(&self) -> u32
        ensures value { result ≡ number self.now };

    // Where it was found, counted in words from 0; of a row to be written, the row's index.
    fn place(&self) -> usize
        ensures value { result ≡ place self.now };

    // The layer that found it.
    fn finder(&self) -> Finder
        ensures value { result ≡ finder self.now };

    // What a refusal prints of it.
    final fn refusal(&self) -> Refusal
        ensures value { result ≡ record { number = number self.now; place = place self.now; finder = finder self.now } }
    {
        Refusal {
            number: self.number(),
            place: self.place(),
            finder: self.finder(),
        }
    }
}

// A refusal: the number of a fault, where it was found, and which layer found it.
#[derive(Clone, Copy, PartialEq, Eq, Debug)]
pub struct Refusal {
    pub number: u32,
    pub place: usize,
    pub finder: Finder,
}

impl fmt::Display for Refusal {
    ghost output = { λ r. Some (refusal_line r.number r.place r.finder) };

    #[tactic(auto, unfolding(crate::specs::Printed::refusal_line))]
    fn fmt<W: fmt::Write>(&self, f: &mut fmt::Formatter<W>) -> fmt::Result {
        write!(f, "refused {} {} {}", self.number, self.place, self.finder)
    }
}
