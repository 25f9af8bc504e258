//! The rules on trip updates and vehicle positions together, as a group: the rows of the table of `rule_table`, which ask for
//! the pairing rows of all entities. Beside it these rows as a set, which answers what the rules ask.
//!
//! `group` is the group, which `answers` answers of an entity and a list of rows (`row`). `pair_index` is the set: `names` gives texts
//! numbers, a `seat` is a row by these numbers, `held` rows as they are held and `entry` their places in the order of a number, which
//! `slots` keeps; `rows` finds a row by all of its numbers, `taking` takes it out, and `naming` has the keys of the rows that have a number.
//! `again` puts rows in once more, which gives back the numbers of ids without a row. `laws` says which lists of rows answer alike.
#![tactic(auto)]

mod again;
mod answers;
mod entry;
mod group;
mod held;
mod laws;
mod names;
mod naming;
mod pair_index;
mod row;
mod rows;
mod seat;
mod slots;
mod taking;

pub use answers::PairAnswers;
pub use group::PairGroup;
pub use laws::alike_rows_agree;
pub use pair_index::PairIndex;
pub use row::PairRow;
