// A table that may be written.
ghost use Rattle.std.specs.Prelude.{◌≡◌, ◌^◌, ◌<◌, ◌≤◌, map, length, All};
ghost use Rattle.sheet.specs.Written.{table_words};
ghost use Rattle.writer.specs.Writing.{row_of, Writable, card_over};

use crate::write::TableRow;

mod checked;
mod counted;
mod put;

// A card with these rows over the slots in a mask, and the number of its words with END.
#[derive(Clone, Copy)]
pub struct Table<'a> {
    scope: u32,
    rows: &'a [TableRow<'a>],
    pub(crate) len: usize,
    // The mask is one of twelve slots.
    ghost slots: { scope < 2 ^ 12 },
    // CARD can count the rows.
    ghost few: { length rows.now < 2 ^ 16 },
    // Each number fits its words.
    ghost fits: { All Writable (map row_of rows.now) },
    ghost counted: { len ≡ length (table_words (card_over scope (map row_of rows.now))) },
    // END can count the words before it.
    ghost short: { len ≤ 2 ^ 28 },
}
