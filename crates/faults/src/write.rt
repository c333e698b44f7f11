// The faults of writing a table: what is wrong with the sheet beside it, with a row, or with the room.
ghost use Rattle.std.specs.Prelude.{◌≡◌};
ghost use Rattle.faults.specs.Faults.{write_of_sheet, write_number, write_place, write_finder};

use crate::fault::{Finder, SheetFault};
use crate::refusal::Fault;

// Why a table was not written.
#[derive(Clone, Copy, PartialEq, Eq, Debug)]
pub enum WriteFault {
    Sheet(SheetFault),
    // The first row that is not one of a valid table, by its index.
    Row { row: usize },
    // The table is longer than the usable output; the place is the usable length.
    Full { place: usize },
}

impl From<SheetFault> for WriteFault {
    ghost from_gives = { λ fault r. r ≡ write_of_sheet fault };

    fn from(fault: SheetFault) -> WriteFault {
        WriteFault::Sheet(fault)
    }
}

// The place is one of the sheet, the index of the row, or the usable length of the output.
impl Fault for WriteFault {
    ghost number = { write_number };

    ghost place = { write_place };

    ghost finder = { write_finder };

    fn number(&self) -> u32 {
        match self {
            WriteFault::Sheet(fault) => fault.number(),
            WriteFault::Row { .. } => 3,
            WriteFault::Full { .. } => 7,
        }
    }

    fn place(&self) -> usize {
        match self {
            WriteFault::Sheet(fault) => fault.place(),
            WriteFault::Row { row } => *row,
            WriteFault::Full { place } => *place,
        }
    }

    fn finder(&self) -> Finder {
        match self {
            WriteFault::Sheet(fault) => fault.finder(),
            _ => Finder::Table,
        }
    }
}
