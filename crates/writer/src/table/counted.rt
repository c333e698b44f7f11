// Counting the words of a table.
ghost use Rattle.std.specs.Prelude.{◌≡◌, ◌^◌, ◌<◌, ◌≤◌, map, length, All};
ghost use Rattle.sheet.specs.Written.{table_words};
ghost use Rattle.writer.specs.Tables.{card_of};
ghost use Rattle.writer.specs.Writing.{row_of, Writable, card_over};

use super::Table;
use crate::write::TableRow;

impl<'a> Table<'a> {
    // The table with these rows over the slots in a mask.
    pub fn new(scope: u32, rows: &'a [TableRow<'a>]) -> Self
        requires slots { scope < 2 ^ 12 }
        requires few { length rows.now < 2 ^ 16 }
        requires fits { All Writable (map row_of rows.now) }
        requires short { length (table_words (card_over scope (map row_of rows.now))) ≤ 2 ^ 28 }
        ensures card { card_of result ≡ card_over scope (map row_of rows.now) }
    {
        let mut len = 2;
        for row in rows {
            len += row.values.len() + 2;
        }
        Table { scope, rows, len }
    }
}
