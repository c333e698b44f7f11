// What is still to come after HEAD.
ghost use Rattle.sheet.specs.Readers.{HandsOn, OfCounts, body_to_come};
ghost use Rattle.sheet.specs.Scope.{no_sizes};

use crate::card::card_over;
use crate::dims::Dims;
use crate::item::{Head, Item};
use crate::parts::{end_at, slot_at};
use crate::reader_fault::ReaderFault;
use crate::rows::CardRows;
use crate::scope::declare;
use reckoning::Reckoning;
use words::Cursor;

// The slots, cards and rows that are still to come, by the counts; END comes after them.
#[derive(Clone, Copy)]
pub struct Body<'a> {
    // How many slots are still to come, and how many open ones among them.
    slots: u32,
    opens: u32,
    // How many cards are still to come.
    cards: u32,
    // The sizes of the slots 1 to 12, 0 where a slot is not there: of a sheet those so far, for a table the open ones.
    sizes: [u32; 12],
    // The rows still to come of the card that is being read.
    rows: CardRows<'a>,
}

impl<'a> Body<'a> {
    // What a sheet's HEAD says is to come.
    pub(crate) fn after(head: Head) -> Self
        ensures value { OfCounts head.slots head.«open» head.cards no_sizes result }
    {
        Body {
            slots: head.slots,
            opens: head.open,
            cards: head.cards,
            sizes: [0; 12],
            rows: CardRows::new(0, Dims::default()),
        }
    }

    // One card, over open slots of these sizes.
    pub(crate) fn of_table(sizes: [u32; 12]) -> Self
        ensures value { OfCounts 0 0 1 sizes result }
    {
        Body {
            slots: 0,
            opens: 0,
            cards: 1,
            sizes,
            rows: CardRows::new(0, Dims::default()),
        }
    }

    // The item that is due: a SLOT, a row of the card that is being read, a CARD, or END.
    pub(crate) fn due_item<R: Reckoning, F: ReaderFault>(
        &mut self,
        cursor: &mut Cursor<'a>,
    ) -> Result<Item<'a>, F>
        ensures value { HandsOn (body_to_come R.Reckoning.meaning F.ReaderFault.form self.old cursor.old) result (body_to_come R.Reckoning.meaning F.ReaderFault.form self.new cursor.new) }
    {
        if self.slots > 0 {
            let slot = slot_at::<R>(cursor, self.opens > 0, &self.sizes)?;
            self.slots -= 1;
            self.opens = self.opens.saturating_sub(1);
            declare(&mut self.sizes, slot);
            Ok(Item::Slot(slot))
        } else if self.rows.left > 0 {
            Ok(self.rows.next_row::<R>(cursor)?)
        } else if self.cards > 0 {
            let (head, dims) = card_over::<F>(cursor, &self.sizes)?;
            self.cards -= 1;
            self.rows = CardRows::new(head.rows, dims);
            Ok(Item::Card(head))
        } else {
            let words = end_at::<F>(cursor)?;
            Ok(Item::End { words })
        }
    }
}
