//! Everything that `rt_command` does, without the system below it: a run over words, a moment, files and streams that are given.
//!
//! What [`run`] writes and answers is the report of its words, its moment and what the files hold:
//! `specs/Reported.antt` defines it, down to the bytes, and the contract of `run` says it. What
//! hinders a run, a failed read, a failed write or want of memory, is answered and told on the
//! error stream, and what stands on the output is then a prefix of the report.
//!
//! Each command is carried out by a crate of its own: run_check, run_follow, run_predict, run_json for `show` and `encode`,
//! run_trial, run_verify, run_merge and run_alerts. run_words reads the words, and run_base has what all commands share. Here they are joined:
//! `running` carries out the request of the words.
#![tactic(auto)]

mod running;

pub use alert_terms::Query;
pub use run_base::Status;
pub use run_words::{Request, ZoneWord, words_of};
pub use running::run;
