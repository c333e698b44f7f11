ghost use Rattle.std.specs.Prelude.{◌≡◌, ◌<◌, ◌∷◌, length};
ghost use Rattle.std.specs.Iterator.{YieldsFirstRef, item_count};
ghost use Rattle.input.specs.Lines.{FallsIntoLines, lines_of, to_come};

// The lines of a text that are still to come, each without its line feed.
#[derive(Debug, Drop)]
pub struct Lines<'a> {
    // What stands behind the lines that were given.
    rest: &'a [u8],
}

impl<'a> Lines<'a> {
    // The lines of this text.
    #[tactic(auto, using(crate::proofs::CutLines::falls_into_lines))]
    pub fn new(text: &'a [u8]) -> Self
        ensures value { to_come result ≡ lines_of text.now }
        ensures law { FallsIntoLines }
    {
        Lines { rest: text }
    }
}

impl<'a> Iterator for Lines<'a> {
    type Item = &'a [u8];

    ghost next_gives = { YieldsFirstRef to_come };

    ghost remaining = { item_count to_come };

    #[tactic(auto, using(std::proofs::lemmas::List::nil_from_length), unfolding(crate::specs::Lines::lines_of))]
    fn next(&mut self) -> Option<&'a [u8]> {
        if self.rest.is_empty() {
            return None;
        }
        let (line, rest) = split_line(self.rest);
        self.rest = rest;
        Some(line)
    }
}

// The first line of a text, and what stands behind the line feed that ends it.
fn split_line(text: &[u8]) -> (&[u8], &[u8])
    requires { 0 < length text.now }
    ensures { lines_of text.now ≡ result.0.now ∷ lines_of result.1.now }
{
    for (end, byte) in text.iter().enumerate() {
        if *byte == b'\n' {
            return (&text[..end], &text[end + 1..]);
        }
    }
    (text, &[])
}
