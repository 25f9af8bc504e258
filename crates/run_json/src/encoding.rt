//! The command `encode`.
ghost use Rattle.std.specs.Prelude.{◌≡◌, ◌∷◌, [], OnOk, IsErrOf, Contains};
ghost use Rattle.std.specs.Io.KnownBytes.{append_known};
ghost use Rattle.rt_outside.specs.Causes.{Rose};
ghost use Rattle.rt_outside.specs.Sink.{AppendsPrefix};
ghost use Rattle.feed_values.specs.Messages.{feed_message};
ghost use Rattle.feed_values.specs.Views.{feed_message_value};
ghost use Rattle.feed_values.specs.WellFormed.{IsWellFormedFeed};
ghost use Rattle.feed_values.specs.Canonical.{canonical};
ghost use Rattle.run_json.specs.Reports.{encode_report};
ghost use Rattle.run_base.specs.Carried.{CarriesOut, exactly};
ghost use Rattle.run_base.specs.Outside.{outside};

use crate::json_input::{input_message, told_as};
use feed_values::FeedMessage;
use rt_outside::{Files, Sink, put_all};
use run_base::{Fault, Status, say_fault, say_input_fault};
use std::alloc::Global;

/// Carries out `encode` on this file: writes the canonical bytes of the snapshot that its JSON says.
pub fn encode<F: Files, S: Sink, E: Sink>(
    alloc: Global,
    file: &str,
    files: &mut F,
    out: &mut S,
    err: &mut E,
) -> Status
    ensures { CarriesOut (exactly (encode_report file.now)) (Contains (file.now ∷ []))
        (outside (F.state files.old) (S.state out.old) (E.state err.old))
        (outside (F.state files.new) (S.state out.new) (E.state err.new)) result }
{
    match input_message(alloc, files, file) {
        Ok(message) => match put_message(alloc, &message, out) {
            Ok(()) => Status::Clean,
            Err(fault) => say_fault(err, fault, file),
        },
        Err(fault) => say_input_fault(err, told_as(alloc, file, &fault)),
    }
}

// Writes the canonical bytes of a snapshot.
fn put_message<S: Sink>(alloc: Global, message: &FeedMessage, out: &mut S) -> Result<(), Fault>
    requires { IsWellFormedFeed (feed_message_value message.now) }
    ensures whole { OnOk result ((S.state out.new).written
        ≡ append_known (S.state out.old).written (canonical feed_message (feed_message_value message.now))) }
    ensures part { AppendsPrefix (S.state out.old).written (S.state out.new).written
        (canonical feed_message (feed_message_value message.now)) }
    ensures not_read { IsErrOf result Fault.Read → ⊥ }
    ensures write { IsErrOf result Fault.Write → Rose (S.state out.old).faults (S.state out.new).faults }
{
    let bytes = feed_codec::encode(alloc, message)?;
    put_all(out, &bytes)?;
    Ok(())
}
