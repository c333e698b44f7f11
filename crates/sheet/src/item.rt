// What a reader hands out, one item at a time.
ghost use Rattle.std.specs.Prelude.{◌≡◌};
ghost use Rattle.sheet.specs.Loads.{head_of, slot_of, card_of};

use crate::fold::Fold;

// The counts that a sheet begins with.
#[derive(Clone, Copy, PartialEq, Eq, Debug)]
pub struct Head {
    // How many slots the sheet has.
    pub slots: u32,
    // How many of them, the first ones, are left open.
    pub open: u32,
    // How many cards the sheet has.
    pub cards: u32,
}

// The counts in the load of HEAD.
impl From<u32> for Head {
    ghost from_gives = { λ load r. r ≡ head_of load };

    fn from(load: u32) -> Head {
        Head {
            slots: load % 0x100,
            open: load / 0x100 % 0x100,
            cards: load / 0x1_0000,
        }
    }
}

// A slot: one choice in a hire, such as a handset model or a language, with a fixed number of values.
// In the field's terms it is a variable with a finite domain.
#[derive(Clone, Copy, PartialEq, Eq, Debug)]
pub struct Slot {
    // The slot's own number, 1 to 12.
    pub number: u32,
    // How it is taken out, or that it is left open.
    pub fold: Fold,
    // How many values it has, 1 to 256; they are 0 to size - 1.
    pub size: u32,
}

// The slot in the load of SLOT.
impl From<u32> for Slot {
    ghost from_gives = { λ load r. r ≡ slot_of load };

    fn from(load: u32) -> Slot {
        Slot {
            number: load % 0x100,
            fold: Fold::from(load / 0x100 % 0x100),
            size: load / 0x1_0000,
        }
    }
}

// A card begins: which slots it is over, and how many rows follow.
// In the field's terms a card is a factor that lists its non-zero entries.
#[derive(Clone, Copy, PartialEq, Eq, Debug)]
pub struct CardHead {
    // Bit i - 1 is set where slot i is one of the card's.
    pub scope: u32,
    pub rows: u32,
}

// The slots and the number of rows in the load of CARD.
impl From<u32> for CardHead {
    ghost from_gives = { λ load r. r ≡ card_of load };

    fn from(load: u32) -> CardHead {
        CardHead {
            scope: load % 0x1000,
            rows: load / 0x1000,
        }
    }
}

// One item of a sheet or a table.
#[derive(Clone, Copy)]
pub enum Item<'a> {
    Head(Head),
    Slot(Slot),
    Card(CardHead),
    // The VALUE words of a row as they stand in the lent words, where they stand, and the code of the row's weight.
    Row {
        place: usize,
        values: &'a [u32],
        code: u64,
    },
    // The end, and the number of words up to it, END included.
    End {
        words: usize,
    },
}
