//! A snapshot that arrives in pieces.
ghost use Rattle.std.specs.Prelude.{◌≡◌, ◌++◌, ◌≤◌, ◌<◌, [], ℕ, List, length, nat_lt, IfOk, OnOk, Err, None};
ghost use Rattle.feed_values.specs.Accepted.{snapshot_limit};
ghost use Rattle.feed_codec.specs.Refusal.{refused, refusal};
ghost use Rattle.feed_codec.specs.declared.refusal.Reason.TheVariants.{TooLarge};
ghost use Rattle.feed_codec.specs.Decoded.{Decodes};
ghost use Rattle.feed_codec.specs.declared.codec_fault.CodecFault.TheVariants.{Memory};
ghost use Rattle.feed_stream.specs.Came.{Came};
ghost use Rattle.feed_stream.specs.Inside.{IsFound, IsWalk, sofar};

use crate::beside::Search;
use crate::kept::Kept;
use crate::layout::Layout;
use crate::walking::{Reached, Through, go_through, refusal_of};
use feed_codec::{CodecFault, Reason, Refusal, SNAPSHOT_LIMIT};
use std::alloc::{AllocError, Global};
use std::marker::Model;

/// Bytes, and how far they were gone through.
#[derive(Drop)]
pub struct Walk {
    pub bytes: Vec<u8>,
    pub reached: Reached,
}

/// What is held of what came: why it is refused whatever comes next, and how many bytes came; or all bytes.
#[derive(Drop)]
pub enum Found {
    Refused(Refusal, usize),
    Walked(Walk),
}

/// What more than 67,108,864 bytes are refused for.
fn too_large() -> Refusal
    ensures { result ≡ refused snapshot_limit TooLarge }
{
    Refusal::new(SNAPSHOT_LIMIT, Reason::TooLarge)
}

/// Appends a piece. The first one makes room for what the snapshot before had and an eighth more, so that bytes are seldom moved while they come.
fn append(bytes: &mut Vec<u8>, piece: &[u8], before: Option<&Kept>) -> Result<(), AllocError>
    ensures { OnOk result (bytes.new.items ≡ bytes.old.items ++ piece.now) }
{
    if bytes.is_empty() {
        if let Some(before) = before {
            let size = before.bytes().len();
            bytes.reserve(size.saturating_add(size / 8))?;
        }
    }
    bytes.extend_from_slice(piece)?;
    Ok(())
}

/// Goes on with the next piece, beside the snapshot before.
fn walk_on(
    alloc: Global,
    walk: Walk,
    piece: &[u8],
    before: Option<&Kept>,
    search: &mut Search,
) -> Result<Found, AllocError>
    requires { IsWalk walk }
    ensures found { IfOk result IsFound }
    ensures came { IfOk result (λ found. Came (walk.bytes.items ++ piece.now) (sofar found)) }
{
    let count = walk.bytes.len().saturating_add(piece.len());
    if count > SNAPSHOT_LIMIT {
        return Ok(Found::Refused(too_large(), count));
    }
    let Walk { bytes, reached } = walk;
    let Reached {
        next,
        layout,
        front,
        ..
    } = reached;
    let mut bytes = bytes;
    append(&mut bytes, piece, before)?;
    match go_through(alloc, &bytes, next, layout, front, before, search)? {
        Through::Stopped(reached) => Ok(Found::Walked(Walk { bytes, reached })),
        Through::Refused(refusal) => Ok(Found::Refused(refusal, count)),
    }
}

/// The snapshot that was gone through, or its first fault. Bytes that end too early are refused for that, and else the header is asked.
fn end_of(walk: Walk) -> Result<Kept, CodecFault>
    requires { IsWalk walk }
    ensures answer { Decodes (λ kept. kept) result (refusal walk.bytes.items) walk.bytes.items }
    ensures memory { result ≡ Err Memory → ⊥ }
{
    let Walk { bytes, reached } = walk;
    if let Some(fault) = reached.unfinished {
        return Err(CodecFault::Refused(refusal_of(fault)));
    }
    match reached.layout.header.check(&bytes) {
        Ok(()) => Ok(Kept::of(bytes, reached.layout)),
        Err(refusal) => Err(CodecFault::Refused(refusal)),
    }
}

/// A snapshot of which some pieces have come.
///
/// How the bytes are cut into pieces makes no difference, and a piece may be empty. Each field is gone through once, a payload when it
/// is whole. A fault that no further byte can mend refuses the snapshot at once: from then on bytes are counted and not held, so that
/// what a splitter stands for is said of every byte list that may have come (`Came`).
#[derive(Drop)]
pub struct Splitter {
    alloc: Global,
    found: Found,
    search: Search,
}

impl Model for Splitter {
    ghost use Rattle.feed_stream.specs.Sofar.{Sofar};

    ghost Value = { Sofar };

    ghost use Rattle.feed_stream.specs.Inside.{IsFound, sofar};

    ghost view = { λ s. sofar s.found };

    ghost invariant = { λ s. IsFound s.found };
}

impl Splitter {
    /// No pieces so far. It takes no memory.
    pub fn new(alloc: Global) -> Splitter
        ensures came { Came [] result }
        ensures count { result.count ≡ 0 }
    {
        Splitter {
            alloc,
            found: Found::Walked(Walk {
                bytes: Vec::new(alloc),
                reached: Reached {
                    next: 0,
                    layout: Layout::new(alloc),
                    front: None,
                    unfinished: None,
                },
            }),
            search: Search::new(alloc),
        }
    }

    /// Takes the next piece. After want of memory the splitter is gone.
    pub fn feed(self, piece: &[u8]) -> Result<Splitter, AllocError>
        ensures came { IfOk result (λ fed. (b : List ℕ) → Came b self → Came (b ++ piece.now) fed) }
        ensures grows { 0 < length piece.now → self.count ≤ snapshot_limit → IfOk result (λ fed. self.count < fed.count) }
    {
        self.feed_beside(piece, None)
    }

    /// Takes the next piece, as `feed` does, beside the snapshot that its feed had before. Entities that stand there with the same bytes passed there, and
    /// aren't gone through again; whatever it is, what comes of the pieces is the same. After want of memory the splitter is gone.
    pub fn feed_beside(self, piece: &[u8], before: Option<&Kept>) -> Result<Splitter, AllocError>
        ensures came { IfOk result (λ fed. (b : List ℕ) → Came b self → Came (b ++ piece.now) fed) }
        ensures grows { 0 < length piece.now → self.count ≤ snapshot_limit → IfOk result (λ fed. self.count < fed.count) }
    {
        let Splitter {
            alloc,
            found,
            mut search,
        } = self;
        let found = match found {
            Found::Refused(refusal, count) => {
                Found::Refused(refusal, count.saturating_add(piece.len()))
            }
            Found::Walked(walk) => walk_on(alloc, walk, piece, before, &mut search)?,
        };
        Ok(Splitter {
            alloc,
            found,
            search,
        })
    }

    /// Whether more than 67,108,864 bytes came, so that the snapshot is refused as `TooLarge` whatever comes next.
    pub fn is_full(&self) -> bool
        ensures count { result ≡ nat_lt snapshot_limit self.now.count }
        ensures came { (b : List ℕ) → Came b self.now → result ≡ nat_lt snapshot_limit (length b) }
    {
        match &self.found {
            Found::Refused(_, count) => *count > SNAPSHOT_LIMIT,
            Found::Walked(walk) => walk.bytes.len() > SNAPSHOT_LIMIT,
        }
    }

    /// The snapshot that the pieces make, or its first fault, which is that of `decode`. It takes no memory.
    ///
    /// More than 67,108,864 bytes are `TooLarge`, whatever they hold.
    pub fn finish(self) -> Result<Kept, CodecFault>
        ensures answer { (b : List ℕ) → Came b self → Decodes (λ kept. kept) result (refusal b) b }
        ensures memory { result ≡ Err Memory → ⊥ }
    {
        let Splitter { found, .. } = self;
        match found {
            Found::Refused(_, count) if count > SNAPSHOT_LIMIT => {
                Err(CodecFault::Refused(too_large()))
            }
            Found::Refused(refusal, _) => Err(CodecFault::Refused(refusal)),
            Found::Walked(walk) => end_of(walk),
        }
    }
}
