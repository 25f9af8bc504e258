//! Texts on the error stream.
ghost use Rattle.std.specs.Prelude.{◌≡◌, ◌++◌, OnOk, OnErr};
ghost use Rattle.std.specs.Io.KnownBytes.{append_known};
ghost use Rattle.rt_outside.specs.Causes.{HasCause};
ghost use Rattle.rt_outside.specs.Sink.{AppendsPrefix};
ghost use Rattle.run_base.specs.Inputs.{in_folder};
ghost use Rattle.run_base.specs.Faults.{Says, SaysFault, memory_text, read_fault_text};

use crate::fault::Fault;
use crate::status::Status;
use rt_outside::{Failed, Sink, put_all};

/// Writes a text, and answers what it means, or `WriteFault` where a put fails.
pub fn say<E: Sink>(err: &mut E, text: &[u8], meant: Status) -> Status
    ensures { Says text.now meant (E.state err.old) (E.state err.new) result }
{
    match put_all(err, text) {
        Ok(()) => meant,
        Err(Failed) => Status::WriteFault,
    }
}

/// Tells that no memory was found, and answers so, or `WriteFault` where a put fails.
pub fn say_memory<E: Sink>(err: &mut E) -> Status
    ensures { Says memory_text Status.Memory (E.state err.old) (E.state err.new) result }
{
    say(err, b"out of memory\n", Status::Memory)
}

/// Tells a fault, and answers it. A read fault is that of `file`.
pub fn say_fault<E: Sink>(err: &mut E, fault: Fault, file: &str) -> Status
    ensures { SaysFault fault file.now (E.state err.old) (E.state err.new) result }
{
    match fault {
        Fault::Read => say_read_fault(err, file),
        Fault::Write => say(err, b"write fault\n", Status::WriteFault),
        Fault::Memory => say_memory(err),
    }
}

/// Writes that the file of this name couldn't be read, and answers so, or `WriteFault` where a put fails. It takes no memory for
/// the text.
pub fn say_read_fault<E: Sink>(err: &mut E, name: &str) -> Status
    ensures { Says (read_fault_text name.now) Status.ReadFault
        (E.state err.old) (E.state err.new) result }
{
    match put_three(err, b"read fault: ", name.as_bytes(), b"\n") {
        Ok(()) => Status::ReadFault,
        Err(Failed) => Status::WriteFault,
    }
}

/// Writes that a file of this folder couldn't be read, and answers so, or `WriteFault` where a put
/// fails. It takes no memory for the text.
pub fn say_read_fault_in<E: Sink>(err: &mut E, folder: &str, file: &str) -> Status
    ensures { Says (read_fault_text (in_folder folder.now file.now)) Status.ReadFault
        (E.state err.old) (E.state err.new) result }
{
    match put_read_fault_in(err, folder.as_bytes(), file.as_bytes()) {
        Ok(()) => Status::ReadFault,
        Err(Failed) => Status::WriteFault,
    }
}

// Writes the text of a read fault, whose name is that of a file in a folder.
fn put_read_fault_in<E: Sink>(err: &mut E, folder: &[u8], file: &[u8]) -> Result<(), Failed>
    ensures ok { OnOk result ((E.state err.new).written
        ≡ append_known (E.state err.old).written (read_fault_text (in_folder folder.now file.now))) }
    ensures err { OnErr result (AppendsPrefix (E.state err.old).written (E.state err.new).written
        (read_fault_text (in_folder folder.now file.now))) }
    ensures cause { HasCause (E.state err.old).faults (E.state err.new).faults result }
{
    put_three(err, b"read fault: ", folder, b"/")?;
    put_two(err, file, b"\n")
}

// Writes two pieces.
fn put_two<E: Sink>(err: &mut E, first: &[u8], second: &[u8]) -> Result<(), Failed>
    ensures ok { OnOk result
        ((E.state err.new).written ≡ append_known (E.state err.old).written (first.now ++ second.now)) }
    ensures err { OnErr result
        (AppendsPrefix (E.state err.old).written (E.state err.new).written (first.now ++ second.now)) }
    ensures cause { HasCause (E.state err.old).faults (E.state err.new).faults result }
{
    put_all(err, first)?;
    put_all(err, second)
}

// Writes three pieces.
fn put_three<E: Sink>(err: &mut E, first: &[u8], second: &[u8], third: &[u8]) -> Result<(), Failed>
    ensures ok { OnOk result ((E.state err.new).written
        ≡ append_known (E.state err.old).written (first.now ++ second.now ++ third.now)) }
    ensures err { OnErr result (AppendsPrefix (E.state err.old).written (E.state err.new).written
        (first.now ++ second.now ++ third.now)) }
    ensures cause { HasCause (E.state err.old).faults (E.state err.new).faults result }
{
    put_two(err, first, second)?;
    put_all(err, third)
}
