// The listing of a sheet, or of a table.
ghost use Rattle.std.specs.Prelude.{◌≡◌, IfOk, string_bytes};
ghost use Rattle.sheet.specs.ReadSheet.{sheet_reading};
ghost use Rattle.sheet.specs.ReadTable.{table_reading};
ghost use Rattle.sheet.specs.Readers.{to_come};
ghost use Rattle.listing.specs.Listing.{listing, refused_as, sheet_listing, table_listing};

use crate::text::ItemLine;
use faults::Fault;
use input::Name;
use reckoning::Reckoning;
use sheet::{Reader, ReaderFault, SheetReader, TableReader};
use std::alloc::{AllocError, Global};

// A line for each item that the reader hands out, up to the end or its fault.
#[tactic(auto, using(crate::proofs::Listed::listed))]
fn list<R: Reckoning, F: ReaderFault>(
    alloc: Global,
    name: Name,
    mut reader: Reader<'_, R, F>,
) -> Result<String, AllocError>
    ensures value { IfOk result (λ s. string_bytes s ≡ listing (refused_as F.Fault.number F.Fault.place F.Fault.finder) name (to_come R.Reckoning.meaning F.ReaderFault.form reader.entry)) }
{
    let mut text = String::new(alloc);
    loop {
        match reader.next() {
            Ok(Some(item)) => writeln!(text, "{}", ItemLine { name, item })?,
            Ok(None) => return Ok(text),
            Err(fault) => {
                writeln!(text, "{}", fault.refusal())?;
                return Ok(text);
            }
        }
    }
}

// A line for each item of the sheet, up to its end or its first fault.
pub fn list_sheet<R: Reckoning>(
    alloc: Global,
    name: Name,
    sheet: &[u32],
) -> Result<String, AllocError>
    ensures value { IfOk result (λ s. string_bytes s ≡ sheet_listing name (sheet_reading R.Reckoning.meaning sheet.now)) }
{
    list(alloc, name, SheetReader::<R>::new(sheet))
}

// A line for each item of the table, up to its end or the first fault of its sheet or its own.
pub fn list_table<R: Reckoning>(
    alloc: Global,
    name: Name,
    sheet: &[u32],
    table: &[u32],
) -> Result<String, AllocError>
    ensures value { IfOk result (λ s. string_bytes s ≡ table_listing name (table_reading R.Reckoning.meaning sheet.now table.now)) }
{
    list(alloc, name, TableReader::<R>::new(sheet, table))
}
