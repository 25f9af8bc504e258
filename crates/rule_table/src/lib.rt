//! The rules of a feed as the rows of one table, and what is said of every row: where a rule is judged, which facts it
//! cites there, and when they break it.
//!
//! `specs/Table.antt` is the table, and `table` the same as code; the contracts of `table` say that they are equal. A
//! rule is a row and has no code of its own. `judge_rules` and `judge_heads` judge rows at an entity and on a header, with
//! whatever `Answers` their asks. A place where the rule doesn't break takes no memory: cells are read borrowed, and a
//! condition is tested as soon as its last cell is read. The field of the place itself is looked at before anything is cited,
//! and settles most places (`settled`). Where something is known of an entity before its rules are judged, a value that
//! knows it (`clear_slots`) spares the slots at which a rule breaks nowhere.
//!
//! A `Finding` is a rule, a place and the facts that it cites there. They break the rule, in every finding that there
//! is, so a finding can be shown by itself.
//!
//! From the bottom up: `kind`, `entity_id`, `key`, `place`, `ask`, `fact` and `mark` are what a finding is made of, `finding` and `finding_list` findings;
//! `order` has the numbers by which they go in order, `same` tells whether facts are the same, by the `parts` of their asks;
//! `ids` are those that a trip update or a vehicle position gives, `keys` puts keys in order, and `counting` counts the ids by which entities have them.
//! `rule` names the rules, `row` is what a row is made of and `table` all of them. `cells` are cited cells, `passing` the tests on them,
//! `answers` what answers asks. `asking` is what a row asks at a place, `citing` its facts there, and `judging` judges.
//! What judges `rules` is of one of five sorts: `pair_rule` (over views of rows, `pair_view`), `bound_rule`, `peak_rule` (over views of peaks,
//! `peak_view`), `head_rule`, and rules on one entity and the timetable, which stand above since this crate knows no timetable; `both` makes two groups one.
#![tactic(auto)]

mod answers;
mod ask;
mod asking;
mod both;
mod bound_rule;
mod cells;
mod citing;
mod clear_slots;
mod counting;
mod entity_id;
mod fact;
mod finding;
mod finding_list;
mod head_rule;
mod ids;
mod judging;
mod key;
mod keys;
mod kind;
mod mark;
mod order;
mod pair_rule;
mod pair_view;
mod parts;
mod passing;
mod peak_rule;
mod peak_view;
mod place;
mod row;
mod rule;
mod rules;
mod same;
mod settled;
mod table;

pub use answers::Answers;
pub use ask::{Ask, AskRef};
pub use asking::ask_of;
pub use both::Both;
pub use bound_rule::{Bound, BoundRule};
pub use cells::{cell_of, is_in_range, number_cell, truth_cell};
pub use clear_slots::{ClearSlots, NoneClear};
pub use counting::count_one;
pub use entity_id::EntityId;
pub use fact::{Fact, FactRef};
pub use finding::Finding;
pub use finding_list::FindingList;
pub use head_rule::HeadRule;
pub use ids::{Ids, are_same_ids, ids_of_update, ids_of_vehicle, update_ids, vehicle_ids};
pub use judging::{judge_head, judge_heads, judge_mark, judge_rules, judge_unclear, mark_rules};
pub use key::EntityKey;
pub use keys::keys_in_order;
pub use kind::Kind;
pub use mark::Mark;
pub use order::{feed_of, slot_number};
pub use pair_rule::PairRule;
pub use pair_view::PairView;
pub use passing::test_passes;
pub use peak_rule::PeakRule;
pub use peak_view::PeakView;
pub use place::{Place, PlaceRef};
pub use row::{Atom, Cite};
pub use rule::RuleId;
pub use rules::Rules;
pub use same::are_same_facts;
pub use table::{
    all_rules, cites, cites_at, first, head_cites, head_slots, head_test, slots, slots_at, test,
    test_at,
};
