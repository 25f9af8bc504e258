//! Text that is held back until it fills a piece.
ghost use Rattle.std.specs.Prelude.{OnOk, OnErr};
ghost use Rattle.rt_outside.specs.Causes.{HasCause};
ghost use Rattle.rt_outside.specs.Sink.{AppendsPrefix};
ghost use Rattle.run_base.specs.Sending.{SendsText};

use rt_outside::{Failed, Sink, put_all};

// How many bytes make a piece: what a system writes well at once.
const PIECE: usize = 65536;

/// Writes a text that fills a piece of 65,536 bytes, and empties it.
pub fn send_piece<S: Sink>(text: &mut Vec<u8>, out: &mut S) -> Result<(), Failed>
    ensures ok { OnOk result (SendsText (S.state out.old).written (S.state out.new).written text.old.items text.new.items) }
    ensures err { OnErr result (AppendsPrefix (S.state out.old).written (S.state out.new).written text.old.items) }
    ensures cause { HasCause (S.state out.old).faults (S.state out.new).faults result }
{
    if text.len() >= PIECE {
        put_all(out, text)?;
        text.clear();
    }
    Ok(())
}
