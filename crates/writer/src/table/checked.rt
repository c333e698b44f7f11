// Checking the rows of a table beside its sheet.
ghost use Rattle.std.specs.Prelude.{◌≡◌, map, None};
ghost use Rattle.sheet.specs.Valid.{in_range};
ghost use Rattle.writer.specs.Tables.{shown_card};
ghost use Rattle.writer.specs.Writing.{row_of, values_in, row_fits, first_wrong, accepted};

use super::Table;
use crate::write::TableRow;
use faults::WriteFault;
use reckoning::Reckoning;
use sheet::{in_order, is_listed, mask_in, open_sizes, pick};

// Whether there is one value for each slot, below the slot's size.
fn in_range(dims: &[u32], values: &[u32]) -> bool
    ensures value { result ≡ in_range dims.now values.now }
{
    dims.len() == values.len() && dims.iter().zip(values).all(|(size, value)| *value < *size)
}

// Whether a row may stand at this index, over slots of these sizes, after the row before it.
fn row_fits<R: Reckoning>(
    dims: &[u32],
    previous: Option<&[u32]>,
    index: usize,
    row: TableRow<'_>,
) -> bool
    ensures value { result ≡ row_fits R.Reckoning.meaning dims.now (values_in previous.entry) index (row_of row.entry) }
{
    index < 65_535
        && in_range(dims, row.values)
        && in_order(previous, row.values, |value| value)
        && is_listed::<R>(row.code)
}

// The index of the first row that is refused, if one is.
#[tactic(auto, unfolding(crate::specs::Writing::first_wrong))]
fn first_wrong<R: Reckoning>(dims: &[u32], rows: &[TableRow<'_>]) -> Option<usize>
    ensures value { result ≡ first_wrong R.Reckoning.meaning dims.now None 0 (map row_of rows.now) }
{
    let mut previous: Option<&[u32]> = None;
    for (i, row) in rows.iter().enumerate() {
        if !row_fits::<R>(dims, previous, i, *row) {
            return Some(i);
        }
        previous = Some(row.values);
    }
    None
}

impl<'a> Table<'a> {
    // The table with these rows over the open slots of a sheet; or the sheet's first fault, or the first row that is refused.
    pub fn checked<R: Reckoning>(
        sheet: &[u32],
        rows: &'a [TableRow<'a>],
    ) -> Result<Self, WriteFault>
        ensures value { shown_card result ≡ accepted R.Reckoning.meaning sheet.now (map row_of rows.now) }
    {
        let sizes = open_sizes::<R>(sheet)?;
        let scope = mask_in(&sizes);
        let dims = pick(&sizes, scope);
        if let Some(row) = first_wrong::<R>(dims.as_slice(), rows) {
            return Err(WriteFault::Row { row });
        }
        Ok(Table::new(scope, rows))
    }
}
