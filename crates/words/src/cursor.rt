// Going through lent words.
ghost use Rattle.std.specs.Prelude.{◌≡◌, ◌+◌, ◌^◌, ◌<◌, ◌≤◌, length, drop};

mod moves;

// A place in lent words, and the words from there on.
#[derive(Clone, Copy)]
pub struct Cursor<'a> {
    place: usize,
    rest: &'a [u32],
    // The place behind the last word can be counted.
    ghost counted: { place + length rest.now < 2 ^ 64 },
}

impl<'a> Cursor<'a> {
    // A cursor that stands at this place of the words.
    pub fn at(words: &'a [u32], place: usize) -> Self
        requires { place ≤ length words.now }
        ensures place { result.place ≡ place }
        ensures rest { result.rest.now ≡ drop place words.now }
    {
        Cursor {
            place,
            rest: &words[place..],
        }
    }

    // Where it stands, counted in words from 0.
    pub fn place(&self) -> usize
        ensures value { result ≡ self.now.place }
    {
        self.place
    }

    // The words from there on.
    pub fn rest(&self) -> &'a [u32]
        ensures value { result.now ≡ self.now.rest.now }
    {
        self.rest
    }
}
