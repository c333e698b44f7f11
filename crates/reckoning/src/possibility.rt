// The reckoning of what is possible.
ghost use Rattle.reckoning.specs.Possible.{possible_algebra};
ghost use Rattle.std.proofs.Common.{rules};

use crate::algebra::Reckoning;

// Whether there is a way at all. A weight says that something is possible or that it is not; a product is possible if both
// factors are, and a gather by mark 1 (some) if either weight is.
#[derive(Clone, Copy, Debug)]
pub struct Possible;

impl Reckoning for Possible {
    type Weight = bool;

    ghost meaning = { possible_algebra };

    ghost lawful = { Prim.search rules };

    fn zero() -> bool {
        false
    }

    fn one() -> bool {
        true
    }

    fn decode(code: u64) -> Option<bool> {
        match code {
            0 => Some(false),
            1 => Some(true),
            _ => None,
        }
    }

    fn encode(weight: bool) -> u64 {
        u64::from(weight)
    }

    fn multiply(a: bool, b: bool) -> bool {
        a & b
    }

    fn has(mark: u32) -> bool {
        mark == 1
    }

    fn gather(mark: u32, a: bool, b: bool) -> Option<bool> {
        match mark {
            1 => Some(a | b),
            _ => None,
        }
    }
}
