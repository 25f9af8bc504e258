//! `rt_summary`: what matters in a report of `rt_command`, on one screen.
//!
//! What is counted, and whether the report fails, is what `count_report` of report_input and `fails` of report_counts say. Here words, files
//! and streams are joined to them.
//!
//! - `words`: the words of the command line
//! - `rules`: the rules that are ignored
//! - `names`: the names of the snapshots' files
//! - `input`: standard input
//! - `progress`: how much is read, on a terminal
//! - `trouble`: why there is no summary
#![tactic(auto)]

mod input;
mod names;
mod progress;
mod rules;
mod trouble;
mod words;

use crate::input::StandardInput;
use crate::names::names_of;
use crate::progress::Watched;
use crate::rules::ignored_by;
use crate::trouble::Trouble;
use crate::words::{command_of, fail_on};
use clap::ArgMatches;
use report_counts::Counts;
use report_input::count_report;
use rt_outside::{Files, ReadEnd, RealFiles, RealSink, put_all};
use rule_table::RuleId;
use std::alloc::AllocError;
use std::env;
use std::process::ExitCode;
use summary_text::{record_of, screen_of};

// The counts of the report of this name; on a terminal it is told how much of a long one is read.
fn counted_in<F: Files + Drop>(
    rt: &HostRuntime,
    ignored: &[RuleId],
    files: F,
    name: &str,
) -> Result<Counts, ReadEnd> {
    let mut watched = Watched::new(rt, files);
    let counts = count_report(rt.alloc(), ignored, &mut watched, name);
    watched.clear();
    counts
}

// The counts of the report that the words name, or of standard input.
fn counted(
    rt: &HostRuntime,
    matches: &ArgMatches<'_>,
    ignored: &[RuleId],
) -> Result<Counts, Trouble> {
    let name = matches.get_str("report").unwrap_or("-");
    let counts = if name == "-" {
        counted_in(rt, ignored, StandardInput::new(rt), name)
    } else {
        counted_in(rt, ignored, RealFiles::new(rt), name)
    };
    match counts {
        Ok(counts) => Ok(counts),
        Err(end) => Err(Trouble::unread(rt.alloc(), name, end)),
    }
}

// Writes the summary, and answers whether the report fails.
fn summarized(rt: &HostRuntime, matches: &ArgMatches<'_>) -> Result<bool, Trouble> {
    let alloc = rt.alloc();
    let ignored = ignored_by(rt, matches)?;
    let names = names_of(rt, matches)?;
    let counts = counted(rt, matches, &ignored)?;
    let fails = fail_on(matches).fails(&counts);
    let text = if matches.get_flag("json") {
        record_of(alloc, &counts, names.as_slice(), fails)?
    } else {
        screen_of(alloc, &counts, names.as_slice())?
    };
    put_all(&mut RealSink::new(rt.stdout()), text.as_str().as_bytes())?;
    Ok(fails)
}

// Tells on standard error why there is no summary, and answers the status.
fn told(rt: &HostRuntime, trouble: Trouble) -> u8 {
    let mut err = RealSink::new(rt.stderr());
    match put_all(&mut err, trouble.text().as_bytes()) {
        Ok(()) => trouble.status(),
        Err(_) => Trouble::Write.status(),
    }
}

// The status of a run with these words.
fn answered<'a>(rt: &HostRuntime, words: &'a [String]) -> Result<u8, Trouble> {
    let command = command_of(rt.alloc())?;
    match command.try_get_matches_from(words) {
        Ok(matches) => Ok(if summarized(rt, &matches)? { 1 } else { 0 }),
        Err(error) => match error.print(rt) {
            Ok(()) => Ok(if error.exit_code() == 0 { 0 } else { 2 }),
            Err(_) => Err(Trouble::Write),
        },
    }
}

// The status of this run.
fn status_of(rt: &HostRuntime) -> Result<u8, Trouble> {
    let mut words = Vec::new(rt.alloc());
    if let Ok(args) = env::args(rt) {
        for word in args {
            words.push(word).map_err(AllocError::from)?;
        }
    }
    answered(rt, words.as_slice())
}

fn main(rt: HostRuntime) -> ExitCode {
    ExitCode::from(match status_of(&rt) {
        Ok(status) => status,
        Err(trouble) => told(&rt, trouble),
    })
}
