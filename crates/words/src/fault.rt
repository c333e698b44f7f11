ghost use Rattle.std.specs.Prelude.{◌≡◌};
ghost use Rattle.words.specs.Faults.{fault_number, fault_place};

// What the word layer finds wrong, and where. Its finder is `words`.
#[derive(Clone, Copy, PartialEq, Eq, Debug)]
pub enum WordFault {
    // A word is due and none is left; the place is the number of words.
    Missing { place: usize },
    // The word at the place is of another kind than the one that is due.
    WrongKind { place: usize },
}

impl WordFault {
    // The number that a refusal prints.
    pub fn number(&self) -> u32
        ensures value { result ≡ fault_number self.now }
    {
        match self {
            WordFault::Missing { .. } => 1,
            WordFault::WrongKind { .. } => 2,
        }
    }

    // Where it was found, counted in words from 0.
    pub fn place(&self) -> usize
        ensures value { result ≡ fault_place self.now }
    {
        match self {
            WordFault::Missing { place } | WordFault::WrongKind { place } => *place,
        }
    }
}
