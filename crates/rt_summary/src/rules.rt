//! The rules that are ignored.

use crate::trouble::Trouble;
use clap::ArgMatches;
use report_lines::rule_named;
use rt_outside::{RealFiles, read_whole};
use rule_table::RuleId;
use std::alloc::AllocError;

/// The most bytes that a file of rules may have.
const FILE_LIMIT: usize = 1_048_576;

// Adds a rule, once however often it is named: each line that tells of a rule is held against all of these.
fn add_rule(rules: &mut Vec<RuleId>, rule: RuleId) -> Result<(), AllocError> {
    if !rules.iter().any(|other| *other == rule) {
        rules.push(rule)?;
    }
    Ok(())
}

/// The rules that the words name, and those of the file that they name.
pub fn ignored_by(rt: &HostRuntime, matches: &ArgMatches<'_>) -> Result<Vec<RuleId>, Trouble> {
    let mut rules = Vec::new(rt.alloc());
    if let Some(names) = matches.get_strs("ignore") {
        for name in names {
            let Some(rule) = rule_named(name) else {
                return Err(Trouble::refused(rt.alloc(), "--ignore", "no rule"));
            };
            add_rule(&mut rules, rule)?;
        }
    }
    if let Some(file) = matches.get_str("ignore-file") {
        add_file(rt, file, &mut rules)?;
    }
    Ok(rules)
}

// Adds the rules of a file.
fn add_file(rt: &HostRuntime, file: &str, rules: &mut Vec<RuleId>) -> Result<(), Trouble> {
    let bytes = match read_whole(rt.alloc(), &mut RealFiles::new(rt), file, FILE_LIMIT) {
        Ok(bytes) => bytes,
        Err(end) => return Err(Trouble::unread(rt.alloc(), file, end)),
    };
    match std::str::from_utf8(&bytes) {
        Ok(text) => add_lines(rt, file, text, rules),
        Err(_) => Err(Trouble::refused(rt.alloc(), file, "not text")),
    }
}

// Adds the rules of a text: the first word of each line; what stands behind it says why. Lines that are empty or begin with `#` name none.
fn add_lines(
    rt: &HostRuntime,
    file: &str,
    text: &str,
    rules: &mut Vec<RuleId>,
) -> Result<(), Trouble> {
    for line in text.lines() {
        let word = line.split_whitespace().next().unwrap_or("");
        if word.is_empty() || word.starts_with('#') {
            continue;
        }
        let Some(rule) = rule_named(word) else {
            return Err(Trouble::refused(rt.alloc(), file, "no rule at the head of a line"));
        };
        add_rule(rules, rule)?;
    }
    Ok(())
}
