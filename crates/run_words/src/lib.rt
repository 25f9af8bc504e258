//! What the words of a command line ask for.
//!
//! `words_of` reads the words behind the program's name: a [`Request`], or none where they give none. `specs/Words.antt` says of each
//! list of words which request it is. A later command is a variant of `Request`, with its words.
//!
//! - `command`, `options`, `zone_word`: the commands that take options, the options, and the zone that one of them names
//! - `request`: what may be asked for
//! - `words`: from words to what they ask for
#![tactic(auto)]

mod command;
mod options;
mod request;
mod words;
mod zone_word;

pub use request::Request;
pub use words::words_of;
pub use zone_word::ZoneWord;
