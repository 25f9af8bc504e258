//! The bytes of a report, one by one.
ghost use Rattle.std.specs.Prelude.{◌≡◌, ◌++◌, ◌∷◌, [], IfOk, OnOk, List, ℕ, take};
ghost use Rattle.rule_table.specs.declared.rule.RuleId.{RuleId};
ghost use Rattle.report_counts.specs.Counts.{counts_of};
ghost use Rattle.report_input.specs.Lines.{lines_in};
ghost use Rattle.report_input.specs.Reading.{IsReading, held_more};

use report_counts::Counts;
use report_lines::LINE_LIMIT;
use rule_table::RuleId;
use std::alloc::{AllocError, Global};

/// The counts of the whole lines that came, and the beginning of the line that came in part.
#[derive(Drop)]
pub struct Reader {
    pub counts: Counts,
    pub line: Vec<u8>,
}

impl Reader {
    /// Nothing came.
    pub fn new(alloc: Global) -> Result<Reader, AllocError>
        ensures { (ignored : List RuleId) → IfOk result (IsReading ignored []) }
    {
        Ok(Reader {
            counts: Counts::new(alloc)?,
            line: Vec::new(alloc),
        })
    }

    /// One byte more came.
    pub fn take(&mut self, alloc: Global, ignored: &[RuleId], byte: u8) -> Result<(), AllocError>
        ensures { OnOk result ((before : List ℕ) → IsReading ignored.now before self.old → IsReading ignored.now (before ++ byte ∷ []) self.new) }
    {
        if byte == b'\n' {
            self.counts.take(alloc, ignored, &self.line)?;
            self.line.clear();
            return Ok(());
        }
        hold(&mut self.line, byte)
    }

    /// No byte comes any more: a last line without a line feed counts.
    pub fn finish(self, alloc: Global, ignored: &[RuleId]) -> Result<Counts, AllocError>
        ensures { IfOk result (λ counts. (came : List ℕ) → IsReading ignored.now came self → counts ≡ counts_of ignored.now (lines_in came)) }
    {
        let Reader { mut counts, line } = self;
        let rest = line.as_slice();
        if rest.is_empty() {
            return Ok(counts);
        }
        counts.take(alloc, ignored, rest)?;
        Ok(counts)
    }
}

// Holds one byte more of a line, up to the first that makes it too long.
fn hold(line: &mut Vec<u8>, byte: u8) -> Result<(), AllocError>
    ensures { OnOk result (line.new.items ≡ held_more line.old.items byte) }
{
    if line.len() <= LINE_LIMIT {
        line.push(byte)?;
    }
    Ok(())
}
