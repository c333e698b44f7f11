// Lent words that are laid over, one after another.
ghost use Rattle.std.specs.Prelude.{◌≡◌};

mod lay;

// Lent words, and the place of the next word to be laid. Each call leaves every other word as it was.
#[derive(Drop)]
pub struct Output<'a> {
    words: &'a mut [u32],
    place: usize,
}

impl<'a> Output<'a> {
    // Of these words, at this place. What it lays is laid over the words that were lent (`same_reference`).
    pub fn at(words: &'a mut [u32], place: usize) -> Self
        ensures place { result.place ≡ place }
        ensures words { result.words.now ≡ words.old }
        ensures same_reference { result.words.ghost_name ≡ words.entry.ghost_name }
    {
        Output { words, place }
    }

    // Where the next word is to be laid.
    pub fn place(&self) -> usize
        ensures value { result ≡ self.now.place }
    {
        self.place
    }
}
