ghost use Rattle.std.specs.Prelude.{◌≡◌, ℕ, ◌^◌, ◌<◌};
ghost use Rattle.words.specs.Layout.{kind_number, load_part, word_of, code_of, high_part, low_part};

// What a word is, from bits 28 to 31.
#[derive(Clone, Copy, PartialEq, Eq, Debug)]
pub enum Kind {
    Head = 1,
    Slot = 2,
    Card = 3,
    Value = 4,
    High = 5,
    Low = 6,
    End = 7,
}

// The number in bits 28 to 31 of a word of this kind.
impl From<Kind> for u32 {
    ghost from_gives = { λ kind r. r ≡ kind_number kind };

    fn from(kind: Kind) -> u32 {
        kind as u32
    }
}

// The load of a word: its lower 28 bits.
pub fn load_of(word: u32) -> u32
    ensures value { result ≡ load_part word }
{
    word % 0x1000_0000
}

// The word of this kind with this load.
pub fn make_word(kind: Kind, load: u32) -> u32
    requires { load < 2 ^ 28 }
    ensures value { result ≡ word_of kind load }
{
    u32::from(kind) * 0x1000_0000 + load
}

// The upper 28 bits of a code: the load of its HIGH word.
pub fn high_load(code: u64) -> u32
    requires { code < 2 ^ 56 }
    ensures value { result ≡ high_part code }
{
    (code / 0x1000_0000) as u32
}

// The lower 28 bits of a code: the load of its LOW word.
pub fn low_load(code: u64) -> u32
    ensures value { result ≡ low_part code }
{
    (code % 0x1000_0000) as u32
}

// The code whose HIGH and LOW words have these loads.
pub fn join_code(high: u32, low: u32) -> u64
    ensures value { result ≡ code_of high low }
{
    u64::from(high) * 0x1000_0000 + u64::from(low)
}
