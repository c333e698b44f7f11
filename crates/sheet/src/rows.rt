// The rows of a card that are still to be read.
ghost use Rattle.std.specs.Prelude.{◌≡◌, ◌+◌, ◌<◌, length, OnOk, None};
ghost use Rattle.words.specs.Cursors.{Moved};
ghost use Rattle.sheet.specs.Dims.{dims_list};
ghost use Rattle.sheet.specs.Readers.{entries, row_entry_at, NextRows};
ghost use Rattle.sheet.specs.Reading.{loads};

use crate::card::row_at;
use crate::dims::Dims;
use crate::item::Item;
use faults::CardFault;
use reckoning::Reckoning;
use words::Cursor;

#[derive(Clone, Copy)]
pub struct CardRows<'a> {
    // How many rows are still to come.
    pub(crate) left: u32,
    // The sizes of the card's slots.
    pub(crate) dims: Dims,
    // The VALUE words of the row before, if there is one.
    pub(crate) previous: Option<&'a [u32]>,
}

impl<'a> CardRows<'a> {
    // As many rows, over slots of these sizes, of which none is read yet.
    pub(crate) fn new(left: u32, dims: Dims) -> Self
        ensures value { result ≡ record { left = left; dims = dims; previous = None } }
    {
        CardRows {
            left,
            dims,
            previous: None,
        }
    }

    // The next row.
    pub(crate) fn next_row<R: Reckoning>(
        &mut self,
        cursor: &mut Cursor<'a>,
    ) -> Result<Item<'a>, CardFault>
        requires { 0 < self.old.left }
        ensures value { entries result ≡ row_entry_at R.Reckoning.meaning (dims_list self.old.dims) (loads self.old.previous) cursor.old.place cursor.old.rest.now }
        ensures after { OnOk result (NextRows self.old self.new cursor.old.rest.now) }
        ensures moved { OnOk result (Moved (length (dims_list self.old.dims) + 2) cursor.old cursor.new) }
    {
        let start = *cursor;
        let dims = self.dims;
        let code = row_at::<R>(cursor, dims.as_slice(), self.previous)?;
        let values = &start.rest()[..dims.len()];
        self.previous = Some(values);
        self.left -= 1;
        Ok(Item::Row {
            place: start.place(),
            values,
            code,
        })
    }
}
