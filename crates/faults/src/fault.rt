ghost use Rattle.std.specs.Prelude.{◌≡◌, Some};
ghost use Rattle.faults.specs.Printed.{finder_name};
ghost use Rattle.faults.specs.Faults.{card_of_word, sheet_of_word, sheet_of_card, table_of_word, table_of_card, table_of_sheet, card_number, card_place, card_finder, sheet_number, sheet_place, sheet_finder, table_number, table_place, table_finder};

use crate::refusal::Fault;
use std::fmt;
use words::WordFault;

// The layer that found a fault.
#[derive(Clone, Copy, PartialEq, Eq, Debug)]
pub enum Finder {
    Words,
    Card,
    Sheet,
    Table,
}

impl fmt::Display for Finder {
    ghost output = { λ finder. Some (finder_name finder) };

    fn fmt<W: fmt::Write>(&self, f: &mut fmt::Formatter<W>) -> fmt::Result {
        f.write_str(match self {
            Finder::Words => "words",
            Finder::Card => "card",
            Finder::Sheet => "sheet",
            Finder::Table => "table",
        })
    }
}

// What is wrong with a card, from its CARD word through its rows.
#[derive(Clone, Copy, PartialEq, Eq, Debug)]
pub enum CardFault {
    Word(WordFault),
    // A number outside its rule.
    Number { place: usize },
    // A row that does not come after the row before it; the place is its first word.
    Order { place: usize },
    // A code that is no weight's, or zero's; the place is its LOW word.
    Code { place: usize },
}

// What is wrong with a sheet.
#[derive(Clone, Copy, PartialEq, Eq, Debug)]
pub enum SheetFault {
    Word(WordFault),
    Card(CardFault),
    // A number outside its rule, or a load bit without a meaning that is set.
    Number { place: usize },
    // END counts other words than those before it, or a word follows it.
    End { place: usize },
}

// What is wrong with a table, or with the sheet beside which it is read.
#[derive(Clone, Copy, PartialEq, Eq, Debug)]
pub enum TableFault {
    Sheet(SheetFault),
    Word(WordFault),
    Card(CardFault),
    // END counts other words than those before it, or a word follows it.
    End { place: usize },
}

impl From<WordFault> for CardFault {
    ghost from_gives = { λ fault r. r ≡ card_of_word fault };

    fn from(fault: WordFault) -> CardFault {
        CardFault::Word(fault)
    }
}

impl From<WordFault> for SheetFault {
    ghost from_gives = { λ fault r. r ≡ sheet_of_word fault };

    fn from(fault: WordFault) -> SheetFault {
        SheetFault::Word(fault)
    }
}

impl From<CardFault> for SheetFault {
    ghost from_gives = { λ fault r. r ≡ sheet_of_card fault };

    fn from(fault: CardFault) -> SheetFault {
        SheetFault::Card(fault)
    }
}

impl From<WordFault> for TableFault {
    ghost from_gives = { λ fault r. r ≡ table_of_word fault };

    fn from(fault: WordFault) -> TableFault {
        TableFault::Word(fault)
    }
}

impl From<CardFault> for TableFault {
    ghost from_gives = { λ fault r. r ≡ table_of_card fault };

    fn from(fault: CardFault) -> TableFault {
        TableFault::Card(fault)
    }
}

impl From<SheetFault> for TableFault {
    ghost from_gives = { λ fault r. r ≡ table_of_sheet fault };

    fn from(fault: SheetFault) -> TableFault {
        TableFault::Sheet(fault)
    }
}

impl Fault for CardFault {
    ghost number = { card_number };

    ghost place = { card_place };

    ghost finder = { card_finder };

    fn number(&self) -> u32 {
        match self {
            CardFault::Word(fault) => fault.number(),
            CardFault::Number { .. } => 3,
            CardFault::Order { .. } => 4,
            CardFault::Code { .. } => 5,
        }
    }

    fn place(&self) -> usize {
        match self {
            CardFault::Word(fault) => fault.place(),
            CardFault::Number { place } | CardFault::Order { place } | CardFault::Code { place } =>
                *place,
        }
    }

    fn finder(&self) -> Finder {
        match self {
            CardFault::Word(_) => Finder::Words,
            _ => Finder::Card,
        }
    }
}

impl Fault for SheetFault {
    ghost number = { sheet_number };

    ghost place = { sheet_place };

    ghost finder = { sheet_finder };

    fn number(&self) -> u32 {
        match self {
            SheetFault::Word(fault) => fault.number(),
            SheetFault::Card(fault) => fault.number(),
            SheetFault::Number { .. } => 3,
            SheetFault::End { .. } => 6,
        }
    }

    fn place(&self) -> usize {
        match self {
            SheetFault::Word(fault) => fault.place(),
            SheetFault::Card(fault) => fault.place(),
            SheetFault::Number { place } | SheetFault::End { place } => *place,
        }
    }

    fn finder(&self) -> Finder {
        match self {
            SheetFault::Word(_) => Finder::Words,
            SheetFault::Card(fault) => fault.finder(),
            _ => Finder::Sheet,
        }
    }
}

// The place is one of the sheet for a fault of the sheet, else of the table.
impl Fault for TableFault {
    ghost number = { table_number };

    ghost place = { table_place };

    ghost finder = { table_finder };

    fn number(&self) -> u32 {
        match self {
            TableFault::Sheet(fault) => fault.number(),
            TableFault::Word(fault) => fault.number(),
            TableFault::Card(fault) => fault.number(),
            TableFault::End { .. } => 6,
        }
    }

    fn place(&self) -> usize {
        match self {
            TableFault::Sheet(fault) => fault.place(),
            TableFault::Word(fault) => fault.place(),
            TableFault::Card(fault) => fault.place(),
            TableFault::End { place } => *place,
        }
    }

    fn finder(&self) -> Finder {
        match self {
            TableFault::Sheet(fault) => fault.finder(),
            TableFault::Word(_) => Finder::Words,
            TableFault::Card(fault) => fault.finder(),
            TableFault::End { .. } => Finder::Table,
        }
    }
}
