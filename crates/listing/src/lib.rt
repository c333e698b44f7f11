// What a sheet or a table holds, as text: one line for each item, and one for the fault where there is one.
#![tactic(auto)]

pub mod answer;
pub mod list;
pub mod text;

pub use answer::{Task, inspect};
pub use list::{list_sheet, list_table};
pub use text::ItemLine;
