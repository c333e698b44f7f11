// The reckoning of what a choice costs.
ghost use Rattle.reckoning.specs.Cost.{cost_algebra};
ghost use Rattle.reckoning.specs.CostLaws.{cost_laws};

use crate::algebra::Reckoning;
use crate::weight::Capped;

// What it costs, in cents. The largest weight means "not to be had" and is zero, so that what is not listed is never read
// as free. A product adds two prices, and mark 1 (least) takes the lesser.
#[derive(Clone, Copy, Debug)]
pub struct Cost;

impl Reckoning for Cost {
    type Weight = Capped;

    ghost meaning = { cost_algebra };

    ghost lawful = { cost_laws };

    fn zero() -> Capped {
        Capped::cut(Capped::LARGEST)
    }

    fn one() -> Capped {
        Capped::cut(0)
    }

    fn decode(code: u64) -> Option<Capped> {
        Capped::try_from(code).ok()
    }

    fn encode(weight: Capped) -> u64 {
        u64::from(weight)
    }

    fn multiply(a: Capped, b: Capped) -> Capped {
        a.cut_sum(b)
    }

    fn has(mark: u32) -> bool {
        mark == 1
    }

    fn gather(mark: u32, a: Capped, b: Capped) -> Option<Capped> {
        match mark {
            1 => Some(a.lesser(b)),
            _ => None,
        }
    }
}
