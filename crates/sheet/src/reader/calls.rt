// The calls of a reader.
ghost use Rattle.std.specs.Prelude.{◌≡◌};
ghost use Rattle.sheet.specs.ReadSheet.{head_from};
ghost use Rattle.sheet.specs.Reading.{answer_of, rest_of, shown};
ghost use Rattle.sheet.specs.Readers.{HandsOn, to_come};
ghost use Rattle.sheet.specs.Verify.{verdict};

use super::Reader;
use crate::body::Body;
use crate::item::Item;
use crate::parts::head_at;
use crate::reader_fault::ReaderFault;
use crate::stage::Stage;
use reckoning::Reckoning;

impl<'a, R: Reckoning, F: ReaderFault> Reader<'a, R, F> {
    // The HEAD word, which says what is to come after it.
    fn head(&mut self) -> Result<Item<'a>, F>
        ensures value { HandsOn (head_from R.Reckoning.meaning F.ReaderFault.form self.old.cursor.place self.old.cursor.rest.now) result (to_come R.Reckoning.meaning F.ReaderFault.form self.new) }
    {
        let head = head_at(&mut self.cursor)?;
        self.stage = Stage::Within(Body::after(head));
        Ok(Item::Head(head))
    }

    // The next item; `None` after END; after a fault the same fault.
    #[tactic(auto, unfolding(crate::specs::Readers::to_come))]
    pub fn next(&mut self) -> Result<Option<Item<'a>>, F>
        ensures answer { shown result ≡ answer_of (to_come R.Reckoning.meaning F.ReaderFault.form self.old) }
        ensures rest { to_come R.Reckoning.meaning F.ReaderFault.form self.new ≡ rest_of (to_come R.Reckoning.meaning F.ReaderFault.form self.old) }
    {
        let found = match &mut self.stage {
            Stage::Start => self.head(),
            Stage::Within(body) => body.due_item::<R, F>(&mut self.cursor),
            Stage::Done => return Ok(None),
            Stage::Failed(fault) => return Err(*fault),
        };
        match found {
            Ok(Item::End { .. }) => self.stage = Stage::Done,
            Ok(_) => {}
            Err(fault) => self.stage = Stage::Failed(fault),
        }
        found.map(Some)
    }

    // Reads on to the end: nothing where all is whole, else the fault.
    #[tactic(auto, using(crate::proofs::Answered::through))]
    pub(crate) fn finish(mut self) -> Result<(), F>
        ensures value { result ≡ verdict (to_come R.Reckoning.meaning F.ReaderFault.form self.entry) }
    {
        while self.next()?.is_some() {}
        Ok(())
    }
}
