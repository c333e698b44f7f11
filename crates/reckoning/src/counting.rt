// The reckoning of how many ways there are.
ghost use Rattle.reckoning.specs.Count.{count_algebra};
ghost use Rattle.reckoning.specs.CountLaws.{count_laws};

use crate::algebra::Reckoning;
use crate::weight::Capped;

// How many ways there are. The largest weight means that many or more. Mark 1 (total) adds two weights, and mark 2 (most)
// takes the greater.
#[derive(Clone, Copy, Debug)]
pub struct Count;

impl Reckoning for Count {
    type Weight = Capped;

    ghost meaning = { count_algebra };

    ghost lawful = { count_laws };

    fn zero() -> Capped {
        Capped::cut(0)
    }

    fn one() -> Capped {
        Capped::cut(1)
    }

    fn decode(code: u64) -> Option<Capped> {
        Capped::try_from(code).ok()
    }

    fn encode(weight: Capped) -> u64 {
        u64::from(weight)
    }

    fn multiply(a: Capped, b: Capped) -> Capped {
        a.cut_product(b)
    }

    fn has(mark: u32) -> bool {
        mark == 1 || mark == 2
    }

    fn gather(mark: u32, a: Capped, b: Capped) -> Option<Capped> {
        match mark {
            1 => Some(a.cut_sum(b)),
            2 => Some(a.greater(b)),
            _ => None,
        }
    }
}
