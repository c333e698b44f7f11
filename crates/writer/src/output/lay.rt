// Laying words over lent words, one after another. Each call leaves every other word as it was.
ghost use Rattle.std.specs.Prelude.{◌≡◌, ◌+◌, ◌^◌, ◌<◌, ◌≤◌, [], ◌∷◌, map, length, All};
ghost use Rattle.words.specs.Layout.{word_of};
ghost use Rattle.words.specs.declared.layout.Kind.TheVariants.{Value, End};
ghost use Rattle.sheet.specs.Written.{row_words, rows_words};
ghost use Rattle.writer.specs.Outputs.{Laid, HasRoom};
ghost use Rattle.writer.specs.Writing.{row_of, Writable};

use super::Output;
use crate::write::TableRow;
use words::{Kind, high_load, low_load, make_word};

impl<'a> Output<'a> {
    // Lays one word.
    pub fn word(&mut self, kind: Kind, load: u32)
        requires room { HasRoom 1 self.old }
        requires fits { load < 2 ^ 28 }
        ensures laid { Laid (word_of kind load ∷ []) self.old self.new }
    {
        self.words[self.place] = make_word(kind, load);
        self.place += 1;
    }

    // Lays a VALUE word for each value.
    pub fn values(&mut self, values: &[u32])
        requires room { HasRoom (length values.now) self.old }
        requires fits { All (λ v. v < 2 ^ 28) values.now }
        ensures laid { Laid (map (word_of Value) values.now) self.old self.new }
    {
        for value in values {
            self.word(Kind::Value, *value);
        }
    }

    // Lays a row.
    pub fn row(&mut self, row: TableRow<'_>)
        requires room { HasRoom (length (row_words (row_of row))) self.old }
        requires fits { Writable (row_of row) }
        ensures laid { Laid (row_words (row_of row.entry)) self.old self.new }
    {
        self.values(row.values);
        self.word(Kind::High, high_load(row.code));
        self.word(Kind::Low, low_load(row.code));
    }

    // Lays rows, one after another.
    pub fn rows(&mut self, rows: &[TableRow<'_>])
        requires room { HasRoom (length (rows_words (map row_of rows.now))) self.old }
        requires fits { All Writable (map row_of rows.now) }
        ensures laid { Laid (rows_words (map row_of rows.now)) self.old self.new }
    {
        for row in rows {
            self.row(*row);
        }
    }

    // Lays END, which counts the words before it, and answers how many words there are with it.
    pub fn end(&mut self) -> usize
        requires room { HasRoom 1 self.old }
        requires fits { self.old.place < 2 ^ 28 }
        ensures laid { Laid (word_of End self.old.place ∷ []) self.old self.new }
        ensures count { result ≡ self.new.place }
    {
        let before = self.place as u32;
        self.word(Kind::End, before);
        self.place
    }
}
