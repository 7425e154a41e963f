// Core files: six-byte records, highest byte first, no header.
#![tactic(auto)]

mod errors;
mod reading;
mod writing;

pub use errors::{ReadError, WriteError};
pub use reading::{read_file, words_in};
pub use writing::write_file;
