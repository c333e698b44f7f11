// Laying a table over lent words.
ghost use Rattle.std.specs.Prelude.{◌≡◌, ◌≤◌, length};
ghost use Rattle.sheet.specs.Written.{table_words};
ghost use Rattle.writer.specs.Tables.{card_of};
ghost use Rattle.writer.specs.Writing.{laid};

use super::Table;
use crate::output::Output;
use words::Kind;

impl<'a> Table<'a> {
    // Lays it over the first words, and answers the number of its words.
    pub fn put(&self, out: &mut [u32]) -> usize
        requires room { length (table_words (card_of self.now)) ≤ length out.old }
        ensures value { out.new ≡ laid 0 (table_words (card_of self.now)) out.old }
        ensures place { result ≡ length (table_words (card_of self.now)) }
    {
        let mut output = Output::at(out, 0);
        output.word(Kind::Card, self.scope + self.rows.len() as u32 * 0x1000);
        output.rows(self.rows);
        output.end()
    }
}
