// How a cursor goes on.
ghost use Rattle.std.specs.Prelude.{◌≡◌, OnOk, OnErr};
ghost use Rattle.words.specs.Cursors.{Moved};
ghost use Rattle.words.specs.Layout.{load_due};

use super::Cursor;
use crate::fault::WordFault;
use crate::layout::{Kind, load_of};

impl<'a> Cursor<'a> {
    // The load of the next word, where one of this kind is due, and goes on behind it; stays where there is none.
    #[tactic(auto, unfolding(crate::specs::Layout::load_due))]
    pub fn due(&mut self, kind: Kind) -> Result<u32, WordFault>
        ensures value { result ≡ load_due kind self.old.place self.old.rest.now }
        ensures moved { OnOk result (Moved 1 self.old self.new) }
        ensures kept { OnErr result (self.new ≡ self.old) }
    {
        let Some((word, rest)) = self.rest.split_first() else {
            return Err(WordFault::Missing { place: self.place });
        };
        if word / 0x1000_0000 != u32::from(kind) {
            return Err(WordFault::WrongKind { place: self.place });
        }
        *self = Cursor {
            place: self.place + 1,
            rest,
        };
        Ok(load_of(*word))
    }
}
