// The faults of reading and writing: what is wrong, where, and which layer found it.
#![tactic(auto)]

pub mod fault;
pub mod refusal;
pub mod write;

pub use fault::{CardFault, Finder, SheetFault, TableFault};
pub use refusal::{Fault, Refusal};
pub use write::WriteFault;
