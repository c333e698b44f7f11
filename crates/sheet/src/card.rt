// A card: its CARD word, and its rows.
ghost use Rattle.std.specs.Prelude.{◌≡◌, ◌+◌, true, length, IfOk, OnOk};
ghost use Rattle.words.specs.Cursors.{Moved};
ghost use Rattle.sheet.specs.ReadCard.{card_at, values_at, code_at, row_at};
ghost use Rattle.sheet.specs.Dims.{dims_list};
ghost use Rattle.sheet.specs.Reading.{erased, code_only, loads, firsts};
ghost use Rattle.sheet.specs.Rules.{listed, card_fits};
ghost use Rattle.sheet.specs.Scope.{picked};

use crate::dims::Dims;
use crate::item::CardHead;
use crate::order::in_order;
use crate::reader_fault::ReaderFault;
use faults::CardFault;
use reckoning::Reckoning;
use words::{Cursor, Kind, join_code, load_of};

// Whether a card may have as many rows: one at most where it has no slot.
fn card_fits(head: CardHead) -> bool
    ensures value { result ≡ card_fits (λ _. true) head }
{
    0 < head.scope || head.rows <= 1
}

// The CARD word that is due, whatever its slots.
#[tactic(auto, unfolding(crate::specs::ReadCard::card_at))]
pub(crate) fn card_at(cursor: &mut Cursor<'_>) -> Result<CardHead, CardFault>
    ensures value { result ≡ card_at (λ _. true) cursor.old.place cursor.old.rest.now }
    ensures moved { OnOk result (Moved 1 cursor.old cursor.new) }
{
    let place = cursor.place();
    let head = CardHead::from(cursor.due(Kind::Card)?);
    if !card_fits(head) {
        return Err(CardFault::Number { place });
    }
    Ok(head)
}

// The CARD word that is due where the slots have these sizes, and the sizes of its slots.
pub(crate) fn card_over<F: ReaderFault>(
    cursor: &mut Cursor<'_>,
    sizes: &[u32; 12],
) -> Result<(CardHead, Dims), CardFault>
    ensures value { firsts result ≡ card_at (F.ReaderFault.form.rule sizes.now) cursor.old.place cursor.old.rest.now }
    ensures dims { IfOk result (λ p. dims_list p.1 ≡ picked p.0.scope sizes.now) }
    ensures moved { OnOk result (Moved 1 cursor.old cursor.new) }
{
    let place = cursor.place();
    let head = card_at(cursor)?;
    let Some(dims) = F::cover(sizes, head.scope) else {
        return Err(CardFault::Number { place });
    };
    Ok((head, dims))
}

// Tests the VALUE words of a row over slots of these sizes.
fn check_values(cursor: &mut Cursor<'_>, dims: &[u32]) -> Result<(), CardFault>
    ensures value { result ≡ erased (values_at dims.now cursor.old.place cursor.old.rest.now) }
    ensures moved { OnOk result (Moved (length dims.now) cursor.old cursor.new) }
{
    for size in dims {
        let place = cursor.place();
        let value = cursor.due(Kind::Value)?;
        if value >= *size {
            return Err(CardFault::Number { place });
        }
    }
    Ok(())
}

// Whether a row may have this code: a weight's, and not zero's.
pub fn is_listed<R: Reckoning>(code: u64) -> bool
    ensures value { result ≡ listed R.Reckoning.meaning code }
{
    R::decode(code).is_some() && code != R::encode(R::zero())
}

// The code of a row whose HIGH word is due.
#[tactic(auto, unfolding(crate::specs::ReadCard::code_at))]
fn code_at<R: Reckoning>(cursor: &mut Cursor<'_>) -> Result<u64, CardFault>
    ensures value { result ≡ code_at R.Reckoning.meaning cursor.old.place cursor.old.rest.now }
    ensures moved { OnOk result (Moved 2 cursor.old cursor.new) }
{
    let high = cursor.due(Kind::High)?;
    let place = cursor.place();
    let low = cursor.due(Kind::Low)?;
    let code = join_code(high, low);
    if !is_listed::<R>(code) {
        return Err(CardFault::Code { place });
    }
    Ok(code)
}

// The code of the row that is due, over slots of these sizes, after the row with the VALUE words `previous`.
pub(crate) fn row_at<R: Reckoning>(
    cursor: &mut Cursor<'_>,
    dims: &[u32],
    previous: Option<&[u32]>,
) -> Result<u64, CardFault>
    ensures value { result ≡ code_only (row_at R.Reckoning.meaning dims.now (loads previous.entry) cursor.old.place cursor.old.rest.now) }
    ensures moved { OnOk result (Moved (length dims.now + 2) cursor.old cursor.new) }
{
    let start = *cursor;
    check_values(cursor, dims)?;
    let values = &start.rest()[..dims.len()];
    if !in_order(previous, values, load_of) {
        return Err(CardFault::Order {
            place: start.place(),
        });
    }
    code_at::<R>(cursor)
}
