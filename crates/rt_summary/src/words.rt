//! The words of the command line.

use clap::{Arg, ArgAction, ArgMatches, Command};
use report_counts::FailOn;
use std::alloc::{AllocError, Global};

const LEVELS: [&str; 3] = ["error", "warning", "never"];

/// The command that the words are read by.
pub fn command_of<'a>(alloc: Global) -> Result<Command<'a>, AllocError> {
    let command = Command::new(alloc, "rt_summary")
        .version("0.9.0")
        .about("What matters in a report of rt_command, on one screen");
    let command = with_rules(alloc, command)?;
    let command = with_names(alloc, command)?;
    let json = Arg::new(alloc, "json")
        .long("json")
        .action(ArgAction::SetTrue)
        .help("Write the same as one line of JSON");
    let report = Arg::new(alloc, "report")
        .value_name("REPORT")
        .help("The report; standard input where it is - or not given");
    command.arg(json)?.arg(report)
}

// What concerns rules, and the status.
fn with_rules<'a>(alloc: Global, command: Command<'a>) -> Result<Command<'a>, AllocError> {
    let ignore = Arg::new(alloc, "ignore")
        .long("ignore")
        .value_name("RULE,...")
        .action(ArgAction::Append)
        .value_delimiter(',')
        .help("Leave out the lines of these rules");
    let ignore_file = Arg::new(alloc, "ignore-file")
        .long("ignore-file")
        .value_name("FILE")
        .help("Leave out those of the rules in this file: one a line, and behind it why");
    let fail_on = Arg::new(alloc, "fail-on")
        .long("fail-on")
        .value_name("LEVEL")
        .value_parser(LEVELS.as_slice())
        .default_value("error")
        .help("When the status is 1");
    command.arg(ignore)?.arg(ignore_file)?.arg(fail_on)
}

// What names the snapshots' files.
fn with_names<'a>(alloc: Global, command: Command<'a>) -> Result<Command<'a>, AllocError> {
    let list = Arg::new(alloc, "list")
        .long("list")
        .value_name("LIST")
        .help("Name refused snapshots by the list that follow was given");
    let files = Arg::new(alloc, "files")
        .long("files")
        .value_name("FILE")
        .num_args(1..=16)
        .conflicts_with("list")?
        .help("Name refused snapshots by the files that check was given");
    command.arg(list)?.arg(files)
}

/// What the report fails on.
pub fn fail_on(matches: &ArgMatches<'_>) -> FailOn {
    match matches.get_str("fail-on") {
        Some("warning") => FailOn::Warning,
        Some("never") => FailOn::Never,
        _ => FailOn::Error,
    }
}
