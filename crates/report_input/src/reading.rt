//! A report in a file.
ghost use Rattle.std.specs.Prelude.{◌≡◌, ◌≤◌, ◌++◌, ◌⊎◌, ℕ, List, IfOk, IfErr, OnOk, IfSome, IsErrOf};
ghost use Rattle.rt_outside.specs.Causes.{Rose};
ghost use Rattle.rt_outside.specs.Store.{contents_told, left};
ghost use Rattle.report_counts.specs.Counts.{counts_of};
ghost use Rattle.report_input.specs.Lines.{lines_in};
ghost use Rattle.report_input.specs.Reading.{IsReading, TellsCounts};

use crate::reader::Reader;
use report_counts::Counts;
use rt_outside::{Files, Opening, ReadEnd};
use rule_table::RuleId;
use std::alloc::{AllocError, Global};

// How many bytes one `pull` may give here: what a system reads well at once.
const PIECE: usize = 65536;

/// The counts of the lines of the file of this name; the lines of these rules are ignored.
///
/// `Absent` comes where no file has the name, and `ReadFault` where a call fails. More than 2^64 - 1 pieces are answered as want of memory.
pub fn count_report<F: Files>(
    alloc: Global,
    ignored: &[RuleId],
    files: &mut F,
    name: &str,
) -> Result<Counts, ReadEnd>
    ensures counts { IfSome (contents_told (F.state files.old).told) (λ contents. TellsCounts ignored.now contents name.now result) }
    ensures cause { IsErrOf result ReadEnd.ReadFault → Rose (F.state files.old).faults (F.state files.new).faults }
{
    match files.open_file(name) {
        Opening::Opened => count_opened(alloc, ignored, files),
        Opening::Absent => Err(ReadEnd::Absent),
        Opening::Failed => Err(ReadEnd::ReadFault),
    }
}

// The counts of the lines that are left of the open file.
fn count_opened<F: Files>(
    alloc: Global,
    ignored: &[RuleId],
    files: &mut F,
) -> Result<Counts, ReadEnd>
    ensures counts { IfSome (F.state files.old).told (λ store. IfOk result (λ counts. counts ≡ counts_of ignored.now (lines_in (left store)))) }
    ensures err { IfErr result (λ e. e ≡ ReadEnd.ReadFault ⊎ e ≡ ReadEnd.Memory) }
    ensures later { (F.state files.old).faults ≤ (F.state files.new).faults }
    ensures cause { IsErrOf result ReadEnd.ReadFault → Rose (F.state files.old).faults (F.state files.new).faults }
{
    let mut reader = Reader::new(alloc)?;
    let mut piece = [0; PIECE];
    for _ in 0..u64::MAX {
        let count = files.pull(&mut piece)?;
        if count == 0 {
            return Ok(reader.finish(alloc, ignored)?);
        }
        take_piece(alloc, ignored, &mut reader, &piece[..count])?;
    }
    Err(ReadEnd::Memory)
}

// These bytes came.
fn take_piece(
    alloc: Global,
    ignored: &[RuleId],
    reader: &mut Reader,
    piece: &[u8],
) -> Result<(), AllocError>
    ensures { OnOk result ((before : List ℕ) → IsReading ignored.now before reader.old → IsReading ignored.now (before ++ piece.now) reader.new) }
{
    for byte in piece {
        reader.take(alloc, ignored, *byte)?;
    }
    Ok(())
}
