//! What a report comes to, as a screen for a person and as one line for a script.
//!
//! What is counted is said by `report_counts`, and nothing here counts. No line of the screen is wider than 80 columns, and what a report
//! brings can't turn the terminal: characters that don't show are written as escapes. That is tested, and said by no clause.
//!
//! - `titles`: each rule's title and what it means, as docs/rules.md says them
//! - `visible`: texts of a report, as a terminal may show them
//! - `wrapped`: paragraphs of at most 80 columns
//! - `phrases`, `facts`: facts as a sentence
//! - `grouped`: numbers, and what is counted
//! - `place`: where the first finding of a rule stands
//! - `ranked`: the rules that broke, the worst first
//! - `screen`: the screen
//! - `record`: the line
#![tactic(auto)]

mod facts;
mod grouped;
mod phrases;
mod place;
mod ranked;
mod record;
mod screen;
mod titles;
mod visible;
mod wrapped;

pub use record::record_of;
pub use screen::screen_of;
