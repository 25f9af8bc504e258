//! The snapshot in a file.
ghost use Rattle.std.specs.Prelude.{◌≡◌, ◌≤◌, ℕ, List, Err, IfSome, IfOk, IfErr, IsErrOf};
ghost use Rattle.std.specs.FinMap.{get};
ghost use Rattle.rt_outside.specs.Causes.{Rose};
ghost use Rattle.rt_outside.specs.Store.{contents_told, left};
ghost use Rattle.feed_values.specs.Views.{feed_message_value};
ghost use Rattle.feed_values.specs.WellFormed.{IsWellFormedFeed};
ghost use Rattle.feed_codec.specs.Refusal.{refusal};
ghost use Rattle.feed_stream.specs.Came.{Came};
ghost use Rattle.run_base.specs.Found.{found_value, snapshot_in, decoded};
ghost use Rattle.run_base.specs.Found.{kept_bytes};
ghost use Rattle.run_base.specs.Pieces.{TellsCame};
ghost use Rattle.run_base.specs.Found.{bytes_in, unless_faulty};

use crate::fault::Fault;
use feed_codec::{CodecFault, Reason, Refusal, SNAPSHOT_LIMIT, decode};
use feed_stream::{Kept, Splitter};
use feed_values::FeedMessage;
use rt_outside::{Files, Opening, ReadEnd, read_whole};
use std::alloc::Global;

// How many bytes one `pull` may give here: what a system reads well at once.
const PIECE: usize = 65536;

/// The snapshot in the file of this name, or why it is refused. A file that isn't there is a refused snapshot.
///
/// The bytes of the file are given up once they are decoded. What is given can be written again.
pub fn read_snapshot<F: Files>(
    alloc: Global,
    files: &mut F,
    file: &str,
) -> Result<Result<FeedMessage, Refusal>, Fault>
    ensures found { IfSome (contents_told (F.state files.old).told)
        (λ held. IfOk result (λ found. snapshot_in (get held file.now) ≡ found_value found)) }
    ensures well_formed { IfOk result (λ found. IfOk found (λ message. IsWellFormedFeed (feed_message_value message))) }
    ensures contents { contents_told (F.state files.new).told ≡ contents_told (F.state files.old).told }
    ensures asked { IfSome (F.state files.new).asked (λ last. last ≡ file.now) }
    ensures later { (F.state files.old).faults ≤ (F.state files.new).faults }
    ensures read { IsErrOf result Fault.Read → Rose (F.state files.old).faults (F.state files.new).faults }
    ensures not_write { IsErrOf result Fault.Write → ⊥ }
{
    match read_whole(alloc, files, file, SNAPSHOT_LIMIT) {
        Ok(bytes) => decoded(alloc, &bytes),
        Err(ReadEnd::Absent) => Ok(Err(Refusal::new(0, Reason::NoFile))),
        Err(ReadEnd::TooLarge) => Ok(Err(Refusal::new(SNAPSHOT_LIMIT, Reason::TooLarge))),
        Err(ReadEnd::ReadFault) => Err(Fault::Read),
        Err(ReadEnd::Memory) => Err(Fault::Memory),
    }
}

// What the bytes of a snapshot mean, or why they are refused.
fn decoded(alloc: Global, bytes: &[u8]) -> Result<Result<FeedMessage, Refusal>, Fault>
    ensures found { IfOk result (λ found. decoded bytes.now (refusal bytes.now) ≡ found_value found) }
    ensures well_formed { IfOk result (λ found. IfOk found (λ message. IsWellFormedFeed (feed_message_value message))) }
    ensures memory { IfErr result (λ e. e ≡ Fault.Memory) }
{
    match decode(alloc, bytes) {
        Ok(message) => Ok(Ok(message)),
        Err(CodecFault::Refused(refusal)) => Ok(Err(refusal)),
        Err(CodecFault::Memory) => Err(Fault::Memory),
    }
}

/// The snapshot in the file of this name, kept as its bytes, or why it is refused. A file that isn't there is a refused snapshot.
///
/// Entities that stand with the same bytes in the snapshot that its feed had before, where it had one, aren't gone through again.
pub fn read_kept<F: Files>(
    alloc: Global,
    files: &mut F,
    file: &str,
    before: Option<&Kept>,
) -> Result<Result<Kept, Refusal>, Fault>
    ensures found { IfSome (contents_told (F.state files.old).told)
        (λ held. IfOk result (λ found. bytes_in (get held file.now) ≡ kept_bytes found)) }
    ensures contents { contents_told (F.state files.new).told ≡ contents_told (F.state files.old).told }
    ensures asked { IfSome (F.state files.new).asked (λ last. last ≡ file.now) }
    ensures later { (F.state files.old).faults ≤ (F.state files.new).faults }
    ensures read { IsErrOf result Fault.Read → Rose (F.state files.old).faults (F.state files.new).faults }
    ensures not_write { IsErrOf result Fault.Write → ⊥ }
{
    match files.open_file(file) {
        Opening::Opened => {
            let splitter = read_pieces(alloc, files, before)?;
            kept(splitter)
        }
        Opening::Absent => Ok(Err(Refusal::new(0, Reason::NoFile))),
        Opening::Failed => Err(Fault::Read),
    }
}

// The pieces of the open file, up to its end or to where they are more than a snapshot may be.
fn read_pieces<F: Files>(
    alloc: Global,
    files: &mut F,
    before: Option<&Kept>,
) -> Result<Splitter, Fault>
    ensures pieces { IfSome (F.state files.old).told (λ store. IfOk result (TellsCame (left store))) }
    ensures contents { contents_told (F.state files.new).told ≡ contents_told (F.state files.old).told }
    ensures asked { (F.state files.new).asked ≡ (F.state files.old).asked }
    ensures later { (F.state files.old).faults ≤ (F.state files.new).faults }
    ensures read { IsErrOf result Fault.Read → Rose (F.state files.old).faults (F.state files.new).faults }
    ensures not_write { IsErrOf result Fault.Write → ⊥ }
{
    let mut splitter = Splitter::new(alloc);
    let mut piece = [0; PIECE];
    while !splitter.is_full() {
        let Ok(count) = files.pull(&mut piece) else {
            return Err(Fault::Read);
        };
        if count == 0 {
            return Ok(splitter);
        }
        splitter = splitter.feed_beside(&piece[..count], before)?;
    }
    Ok(splitter)
}

// The snapshot that pieces make, or why it is refused.
fn kept(splitter: Splitter) -> Result<Result<Kept, Refusal>, Fault>
    ensures found { (bytes : List ℕ) → Came bytes splitter → IfOk result (λ found. unless_faulty bytes (refusal bytes) ≡ kept_bytes found) }
    ensures memory { IfErr result (λ e. e ≡ Fault.Memory) }
{
    match splitter.finish() {
        Ok(kept) => Ok(Ok(kept)),
        Err(CodecFault::Refused(refusal)) => Ok(Err(refusal)),
        Err(CodecFault::Memory) => Err(Fault::Memory),
    }
}
