// Writing tables into lent words.
#![tactic(auto)]

pub mod output;
pub mod table;
pub mod write;

pub use faults::{Fault, Refusal, WriteFault};
pub use output::Output;
pub use table::Table;
pub use write::{TableRow, write_table};
