// A reader that has read nothing yet.
ghost use Rattle.std.specs.Prelude.{◌≡◌};
ghost use Rattle.sheet.specs.Form.{sheet_form, table_form};
ghost use Rattle.sheet.specs.Places.{Stands};
ghost use Rattle.sheet.specs.ReadSheet.{sheet_reading};
ghost use Rattle.sheet.specs.ReadTable.{table_reading};
ghost use Rattle.sheet.specs.Readers.{AtFirst, to_come};

use super::Reader;
use crate::body::Body;
use crate::stage::Stage;
use crate::verify::open_sizes;
use faults::{SheetFault, TableFault};
use reckoning::Reckoning;
use std::marker::PhantomData;
use words::Cursor;

impl<'a, R: Reckoning> Reader<'a, R, SheetFault> {
    // A reader at the first word of a sheet. Its items are the words, one after another, each where it says.
    pub fn new(words: &'a [u32]) -> Self
        ensures value { to_come R.Reckoning.meaning sheet_form result ≡ sheet_reading R.Reckoning.meaning words.now }
        ensures places { Stands words.now 0 (to_come R.Reckoning.meaning sheet_form result) }
    {
        Self::at_first(words, Stage::Start)
    }
}

impl<'a, R: Reckoning> Reader<'a, R, TableFault> {
    // A reader at the first word of a table, beside its sheet, whose fault comes first.
    // Its items are the words of the table, one after another, each where it says.
    pub fn new(sheet: &[u32], table: &'a [u32]) -> Self
        ensures value { to_come R.Reckoning.meaning table_form result ≡ table_reading R.Reckoning.meaning sheet.now table.now }
        ensures places { Stands table.now 0 (to_come R.Reckoning.meaning table_form result) }
    {
        match open_sizes::<R>(sheet) {
            Ok(sizes) => Self::at_first(table, Stage::Within(Body::of_table(sizes))),
            Err(fault) => Self::at_first(table, Stage::Failed(fault.into())),
        }
    }
}

impl<'a, R, F> Reader<'a, R, F> {
    // A reader at the first word.
    fn at_first(words: &'a [u32], stage: Stage<Body<'a>, F>) -> Self
        ensures value { AtFirst words.now stage.entry result }
    {
        Reader {
            cursor: Cursor::at(words, 0),
            stage,
            reckoning: PhantomData,
        }
    }
}
