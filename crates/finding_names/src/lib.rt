//! Rules, paths, kinds and asks by the names that a report prints.
//!
//! What is read here is what the right text says, and each reading is exact: `specs/` has it as a definition. Other texts may be
//! read too, as digits with zeros before them: whoever must tell them apart prints what was read again. The functions of `laws` say
//! that the text of a rule, path, kind or ask is read as it.
//!
//! - `numbers`: numbers in decimal, within bounds
//! - `slots`, `paths`: slots by the texts around an index, and paths
//! - `rules`, `kinds`: rules and kinds by name
//! - `ask_name`, `asks`: asks by their names, and by their names and keys
#![tactic(auto)]

mod ask_name;
mod asks;
mod kinds;
mod laws;
mod numbers;
mod paths;
mod rules;
mod slots;

pub use ask_name::AskName;
pub use asks::ask_of;
pub use kinds::kind_named;
pub use laws::{ask_is_read, kind_is_read, path_is_read, rule_is_read};
pub use numbers::{u8_of, u32_of};
pub use paths::path_named;
pub use rules::rule_named;
