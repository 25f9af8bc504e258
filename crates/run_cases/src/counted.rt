//! The work that the lines of a run come to.

use cases::say;
use std::alloc::{AllocError, Global};

// The number of the member of this name, quoted and with its colon, or 0 where a line has none.
fn member(line: &str, name: &str) -> u64 {
    match line.split_once(name) {
        Some((_, rest)) => {
            let (value, _) = rest.split_once(",").unwrap_or((rest, ""));
            value
                .strip_suffix("}")
                .unwrap_or(value)
                .parse()
                .unwrap_or(0)
        }
        None => 0,
    }
}

// How many accepted snapshots a line is on.
fn snapshots(line: &str) -> u64 {
    if line.contains("\"line\":\"accepted\"") {
        1
    } else {
        member(line, "\"snapshots\":")
    }
}

/// How many entities a run decodes and how many rules it tests, by the counts of its lines: each on a line. A run's counters stand in contracts
/// alone, so no program can ask them.
pub fn say_work(alloc: Global, out: &[u8], answer: &mut Vec<u8>) -> Result<(), AllocError> {
    let Ok(text) = str::from_utf8(out) else {
        return say(answer, "no text");
    };
    let mut decodes: u64 = 0;
    let mut tests: u64 = 0;
    for line in text.lines() {
        let tested = member(line, "\"tested\":");
        let judged = tested.saturating_add(member(line, "\"retested\":"));
        let paired = member(line, "\"paired\":").saturating_mul(3);
        let bounded = member(line, "\"bounded\":").saturating_mul(2);
        let peaked = member(line, "\"peaked\":");
        decodes = decodes.saturating_add(tested);
        tests = tests
            .saturating_add(snapshots(line).saturating_mul(10))
            .saturating_add(judged.saturating_mul(40))
            .saturating_add(paired)
            .saturating_add(bounded)
            .saturating_add(peaked);
    }
    say(answer, format!(in alloc; "decodes {decodes}")?.as_str())?;
    say(answer, format!(in alloc; "tests {tests}")?.as_str())
}
