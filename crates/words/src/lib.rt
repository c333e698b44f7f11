// The word layer: a sheet and a table are 32-bit words, each a kind and a load.
#![tactic(auto)]

pub mod cursor;
pub mod fault;
pub mod layout;

pub use cursor::Cursor;
pub use fault::WordFault;
pub use layout::{Kind, high_load, join_code, load_of, low_load, make_word};
