// Reading sheets and tables out of lent words, item by item.
#![tactic(auto)]

mod body;
pub mod card;
pub mod dims;
pub mod fold;
pub mod item;
pub mod order;
mod parts;
pub mod reader;
pub mod reader_fault;
mod rows;
pub mod scope;
mod stage;
pub mod verify;

pub use card::is_listed;
pub use dims::Dims;
pub use faults::{CardFault, Fault, Finder, Refusal, SheetFault, TableFault};
pub use fold::Fold;
pub use item::{CardHead, Head, Item, Slot};
pub use order::in_order;
pub use reader::{Reader, SheetReader, TableReader};
pub use reader_fault::ReaderFault;
pub use scope::{mask_in, pick};
pub use verify::{check_sheet, check_table, open_sizes, same_table};
