//! Cases in a text: what is asked, and the answer that is wanted.
//!
//! Each line says by its first signs what it is.
//!
//!     # TEXT         a comment; so is an empty line
//!     == NAME        a case begins; what stands before the first one is there in every case of the text
//!     WORD ..        an ask, in words that the program knows; a word in quotes may be empty or have blanks
//!     | TEXT         a line of text that is given to the ask above
//!     : TEXT         the same without its end of line
//!     + PART ..      bytes that are given to it: hex digits, N*DIGITS for repeated ones, $NAME for named ones
//!     = TEXT         a line of the answer that is wanted; `=: TEXT` and `=+ PART ..` as above
//!     bytes NAME     names the bytes that are given to it
//!
//! [`judge`] puts the asks one after the other to whatever implements [`Asked`] (`asked`). `line` says what a line is, `named` which
//! bytes a piece stands for, `sheet` compares answers and tells which are wrong, `judging` goes through a text. For programs that
//! answer, `words` takes an ask apart and `saying` writes the lines of an answer.
#![tactic(auto)]

mod asked;
mod judging;
mod line;
mod named;
mod saying;
mod sheet;
mod words;

pub use asked::Asked;
pub use judging::judge;
pub use saying::{say, say_hex, say_some, say_whether};
pub use words::{number, size, word, word_list};
