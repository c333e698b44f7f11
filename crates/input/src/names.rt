ghost use Rattle.std.specs.Prelude.{◌≡◌, Some, codes};
ghost use Rattle.std.specs.Result.{result_ok};
ghost use Rattle.input.specs.Names.{name_of};

use std::error::Error;
use std::fmt;

// The reckonings that an input can ask for.
#[derive(Clone, Copy, PartialEq, Eq, Debug)]
pub enum Name {
    Possible,
    Count,
    Cost,
}

// A line that names no reckoning.
#[derive(Clone, Copy, PartialEq, Eq, Debug)]
pub struct UnknownName;

// The reckoning that a line names. The line is the name alone: a blank or a carriage return behind it makes it another line.
impl TryFrom<&[u8]> for Name {
    type Error = UnknownName;

    ghost try_from_gives = { λ line found. result_ok found ≡ name_of line.now };

    fn try_from(line: &[u8]) -> Result<Self, UnknownName> {
        match line {
            b"possible" => Ok(Name::Possible),
            b"count" => Ok(Name::Count),
            b"cost" => Ok(Name::Cost),
            _ => Err(UnknownName),
        }
    }
}

impl fmt::Display for UnknownName {
    ghost output = { λ _. Some (codes "the line names no reckoning") };

    fn fmt<W: fmt::Write>(&self, f: &mut fmt::Formatter<W>) -> fmt::Result {
        f.write_str("the line names no reckoning")
    }
}

impl Error for UnknownName {}
