// Numbers of 56 bits from their codes, and back.
ghost use Rattle.std.specs.Prelude.{◌≡◌, ◌++◌, Some, codes, decimal};
ghost use Rattle.reckoning.specs.Codes.{code_of, Decodes};

use super::Capped;
use std::error::Error;
use std::fmt;

// A code that stands for no number, because it has more than 56 bits.
#[derive(Clone, Copy, Debug, PartialEq, Eq, Hash)]
pub struct TooLarge(pub u64);

impl TryFrom<u64> for Capped {
    type Error = TooLarge;

    ghost try_from_gives = { Decodes };

    fn try_from(code: u64) -> Result<Capped, TooLarge> {
        if code > Capped::LARGEST {
            return Err(TooLarge(code));
        }
        Ok(Capped { value: code })
    }
}

impl From<Capped> for u64 {
    ghost from_gives = { λ a code. code ≡ code_of a };

    fn from(number: Capped) -> u64 {
        number.value
    }
}

impl fmt::Display for TooLarge {
    ghost output = { λ e. Some (decimal e.0 ++ codes " has more than 56 bits") };

    fn fmt<W: fmt::Write>(&self, f: &mut fmt::Formatter<W>) -> fmt::Result {
        write!(f, "{} has more than 56 bits", self.0)
    }
}

impl Error for TooLarge {}
