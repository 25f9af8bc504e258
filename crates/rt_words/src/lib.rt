//! Single words that a person writes, on a command line or in a list: what they say, or that they say nothing.
//!
//! Each reading is exact both ways and takes no memory. `number` reads numbers, and `path` tells which words may be paths
//! of files.
#![tactic(auto)]

mod number;
mod path;

pub use number::number_of;
pub use path::is_path;
