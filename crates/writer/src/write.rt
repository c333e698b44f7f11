// Writing a table beside its sheet into lent words.
ghost use Rattle.std.specs.Prelude.{◌≡◌, map};
ghost use Rattle.writer.specs.Writing.{row_of, write, WrittenReadsBack, RefusesInvalid, RefusesFirst};

use crate::table::Table;
use faults::WriteFault;
use reckoning::Reckoning;

// A row to be written: a value for each open slot by rising slot number, and the code of its weight.
#[derive(Clone, Copy)]
pub struct TableRow<'a> {
    pub values: &'a [u32],
    pub code: u64,
}

// Writes the table with these rows over the open slots of a sheet into the first words of `out`, and answers the number of its
// words. Every test comes before the first write, so that a refusal leaves `out` as it was.
#[tactic(auto, using(crate::proofs::WritingLaws::refuses_invalid))]
pub fn write_table<R: Reckoning>(
    sheet: &[u32],
    rows: &[TableRow<'_>],
    out: &mut [u32],
) -> Result<usize, WriteFault>
    ensures value { (result, out.new) ≡ write R.Reckoning.meaning sheet.now (map row_of rows.now) out.old }
    ensures back { WrittenReadsBack R.Reckoning.meaning sheet.now (map row_of rows.now) result out.new }
    ensures refuses { RefusesInvalid R.Reckoning.meaning sheet.now (map row_of rows.now) }
    ensures first { RefusesFirst R.Reckoning.meaning sheet.now (map row_of rows.now) result }
{
    let table = Table::checked::<R>(sheet, rows)?;
    let room = out.len().min(65_536);
    if table.len > room {
        return Err(WriteFault::Full { place: room });
    }
    Ok(table.put(out))
}
