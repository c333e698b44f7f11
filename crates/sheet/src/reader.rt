// Reading a sheet, or a table beside its sheet.
use crate::body::Body;
use crate::stage::Stage;
use faults::{SheetFault, TableFault};
use std::marker::PhantomData;
use words::Cursor;

mod calls;
mod start;

// Reads lent words, one item at a time, in the reckoning `R`. The fault `F` says whether they are a sheet or a table.
#[derive(Drop)]
pub struct Reader<'a, R, F> {
    // The words that are not read yet.
    cursor: Cursor<'a>,
    stage: Stage<Body<'a>, F>,
    reckoning: PhantomData<R>,
}

// Reads a sheet.
pub type SheetReader<'a, R> = Reader<'a, R, SheetFault>;

// Reads a table beside its sheet.
pub type TableReader<'a, R> = Reader<'a, R, TableFault>;
