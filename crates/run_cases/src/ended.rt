//! What a run has left.

use cases::say;
use rt_outside::MemorySink;
use std::alloc::{AllocError, Global};

/// The two sinks of a run.
#[derive(Drop)]
pub struct Sinks {
    pub out: MemorySink,
    pub err: MemorySink,
}

/// The status of a run, and its sinks.
#[derive(Drop)]
pub struct Ended {
    pub status: u8,
    pub sinks: Sinks,
}

/// The status and what was written to the error stream, on a line.
pub fn say_status(
    alloc: Global,
    status: u8,
    err: &[u8],
    answer: &mut Vec<u8>,
) -> Result<(), AllocError> {
    answer.extend_from_slice(format!(in alloc; "{status}")?.as_bytes())?;
    if !err.is_empty() {
        answer.push(b' ')?;
    }
    answer.extend_from_slice(err)?;
    if !err.ends_with(b"\n") {
        answer.push(b'\n')?;
    }
    Ok(())
}

// What stands behind a name in a line, up to the next comma or brace.
fn value_in<'a>(line: &'a str, name: &str) -> &'a str {
    match line.split_once(name) {
        Some((_, rest)) => {
            let (value, _) = rest.split_once(",").unwrap_or((rest, ""));
            value.strip_suffix("}\n").unwrap_or(value)
        }
        None => "none",
    }
}

/// The values of the members of these names of the one line that was written, each on a line.
pub fn say_members(
    alloc: Global,
    out: &[u8],
    names: &[String],
    answer: &mut Vec<u8>,
) -> Result<(), AllocError> {
    let Ok(line) = str::from_utf8(out) else {
        return say(answer, "no text");
    };
    for name in names {
        let name = name.as_str();
        let quoted = format!(in alloc; "\"{name}\":")?;
        let value = value_in(line, quoted.as_str());
        say(answer, format!(in alloc; "{name} {value}")?.as_str())?;
    }
    Ok(())
}

// A text, and the status and what was written to the error stream.
fn with_status(alloc: Global, text: &str, ended: &Ended) -> Result<Vec<u8>, AllocError> {
    let mut told = Vec::from_slice(alloc, text.as_bytes())?;
    say_status(alloc, ended.status, ended.sinks.err.written(), &mut told)?;
    Ok(told)
}

fn line_count(text: &[u8]) -> u64 {
    let mut count: u64 = 0;
    for byte in text {
        if *byte == b'\n' {
            count = count.saturating_add(1);
        }
    }
    count
}

/// Whether a run wrote a whole report, nothing, or how many lines of it; its status, and what it wrote to the error stream. What isn't a front of
/// the report is told.
pub fn told_lines(alloc: Global, ended: &Ended, whole: &Ended) -> Result<Vec<u8>, AllocError> {
    let out = ended.sinks.out.written();
    let whole = whole.sinks.out.written();
    if !whole.starts_with(out) {
        return with_status(alloc, "no front of it, ", ended);
    }
    if out == whole {
        return with_status(
            alloc,
            if out.is_empty() { "nothing, " } else { "all, " },
            ended,
        );
    }
    let text = match line_count(out) {
        0 => String::from_str(alloc, "nothing, ")?,
        1 => String::from_str(alloc, "1 line, ")?,
        count => format!(in alloc; "{count} lines, ")?,
    };
    with_status(alloc, text.as_str(), ended)
}

/// Whether a run that had so much room filled it with a front of a whole report, or wrote all of it; its status, and what it wrote to the
/// error stream.
pub fn told_filled(
    alloc: Global,
    ended: &Ended,
    whole: &Ended,
    room: usize,
) -> Result<Vec<u8>, AllocError> {
    let out = ended.sinks.out.written();
    let whole = whole.sinks.out.written();
    let text = if out == whole {
        "all, "
    } else if out.len() == room && whole.starts_with(out) {
        "filled, "
    } else {
        "no front of it, "
    };
    with_status(alloc, text, ended)
}
