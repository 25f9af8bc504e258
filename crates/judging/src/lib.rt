//! One snapshot judged: its entities under their keys, and the findings of all rules on its header and at each entity, rule by
//! rule in the order of their texts.
//!
//! `rows` has the pairing rows of a snapshot. `header_rules` judges a header, and `ruling` puts what groups of rules find in the order of rules; `marking`
//! marks where the rules of the whole table break at an entity, with all that they ask answered by `entity_answers`. `laws` says what a history of one
//! snapshot is.
#![tactic(auto)]

mod entity_answers;
mod header_rules;
mod laws;
mod marking;
mod rows;
mod ruling;

pub use header_rules::HeaderRules;
pub use laws::one_snapshot_is_its_history;
pub use marking::{Setting, finding_at, marks_at};
pub use message_rules::MessageGroup;
pub use rows::rows_of;
pub use rule_table::count_one;
pub use ruling::rule_by_rule;
pub use schedule_rules::ScheduleGroup;
