// The single words of a sheet: HEAD, SLOT and END.
ghost use Rattle.std.specs.Prelude.{◌≡◌, OnOk};
ghost use Rattle.words.specs.Cursors.{Moved};
ghost use Rattle.sheet.specs.ReadCard.{ending};
ghost use Rattle.sheet.specs.ReadSheet.{head_at, slot_at};
ghost use Rattle.sheet.specs.Readers.{end_or_fault};
ghost use Rattle.sheet.specs.Rules.{head_fits, fold_fits, slot_fits};

use crate::fold::Fold;
use crate::item::{Head, Slot};
use crate::reader_fault::ReaderFault;
use faults::SheetFault;
use reckoning::Reckoning;
use words::{Cursor, Kind};

// Whether the counts of a sheet keep their rules.
fn head_fits(head: Head) -> bool
    ensures value { result ≡ head_fits head }
{
    head.slots <= 12 && head.open <= head.slots && head.cards <= 24
}

// The HEAD word that is due.
#[tactic(auto, unfolding(crate::specs::ReadSheet::head_at))]
pub(crate) fn head_at(cursor: &mut Cursor<'_>) -> Result<Head, SheetFault>
    ensures value { result ≡ head_at cursor.old.place cursor.old.rest.now }
    ensures moved { OnOk result (Moved 1 cursor.old cursor.new) }
{
    let place = cursor.place();
    let head = Head::from(cursor.due(Kind::Head)?);
    if !head_fits(head) {
        return Err(SheetFault::Number { place });
    }
    Ok(head)
}

// Whether a slot that is due as an open one, or as a bound one, may have this fold.
fn fold_fits<R: Reckoning>(open: bool, fold: Fold) -> bool
    ensures value { result ≡ fold_fits R.Reckoning.meaning «open» fold }
{
    match fold {
        Fold::Open => open,
        Fold::Gather(mark) => !open && R::has(mark),
        Fold::Each => !open,
    }
}

// Whether a slot keeps its rules after slots of these sizes.
fn slot_fits<R: Reckoning>(open: bool, sizes: &[u32; 12], slot: Slot) -> bool
    ensures value { result ≡ slot_fits R.Reckoning.meaning «open» sizes.now slot }
{
    (1..=12).contains(&slot.number)
        && sizes[slot.number as usize - 1] == 0
        && (1..=256).contains(&slot.size)
        && fold_fits::<R>(open, slot.fold)
}

// The SLOT word that is due, of an open slot or a bound one, after slots of these sizes.
#[tactic(auto, unfolding(crate::specs::ReadSheet::slot_at))]
pub(crate) fn slot_at<R: Reckoning>(
    cursor: &mut Cursor<'_>,
    open: bool,
    sizes: &[u32; 12],
) -> Result<Slot, SheetFault>
    ensures value { result ≡ slot_at R.Reckoning.meaning «open» sizes.now cursor.old.place cursor.old.rest.now }
    ensures moved { OnOk result (Moved 1 cursor.old cursor.new) }
{
    let place = cursor.place();
    let slot = Slot::from(cursor.due(Kind::Slot)?);
    if !slot_fits::<R>(open, sizes, slot) {
        return Err(SheetFault::Number { place });
    }
    Ok(slot)
}

// The END word that is due, which counts the words before it and is the last: the number of all words.
pub(crate) fn end_at<F: ReaderFault>(cursor: &mut Cursor<'_>) -> Result<usize, F>
    ensures value { end_or_fault result ≡ ending F.ReaderFault.form.of_word F.ReaderFault.form.wrong_end cursor.old.place cursor.old.rest.now }
{
    let before = cursor.place();
    let counted = cursor.due(Kind::End)? as usize;
    if counted != before {
        return Err(F::wrong_end(before));
    }
    let words = cursor.place();
    if !cursor.rest().is_empty() {
        return Err(F::wrong_end(words));
    }
    Ok(words)
}
