// Reckonings: what a weight is, and how weights combine.
#![tactic(auto)]

mod algebra;
mod counting;
mod possibility;
mod pricing;
mod weight;

pub use algebra::{Reckoning, units};
pub use counting::Count;
pub use possibility::Possible;
pub use pricing::Cost;
pub use weight::{Capped, TooLarge};
