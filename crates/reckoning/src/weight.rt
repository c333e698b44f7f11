// A weight that several reckonings share: a number of 56 bits.
ghost use Rattle.std.specs.Prelude.{◌^◌, ◌<◌};

mod arithmetic;
mod codes;

pub use codes::TooLarge;

// A number of 56 bits. Whether a small one is good, and what the largest means, is up to the reckoning.
#[derive(Clone, Copy, Debug, PartialEq, Eq, PartialOrd, Ord, Hash)]
pub struct Capped {
    value: u64,
    ghost within: { value < 2 ^ 56 },
}

impl Capped {
    // The largest number of 56 bits.
    pub const LARGEST: u64 = (1 << 56) - 1;
}
