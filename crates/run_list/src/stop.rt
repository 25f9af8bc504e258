//! Why rows aren't followed to their end, and how that is told.
ghost use Rattle.std.specs.Prelude.{◌≡◌, ◌≢◌};
ghost use Rattle.run_base.specs.Faults.{SaysFault};
ghost use Rattle.run_base.specs.declared.fault.Fault.TheVariants.{Read};
ghost use Rattle.run_list.specs.Stops.{fault_of, name_of};

use rt_outside::Sink;
use run_base::{Fault, InputFault, Status, say_fault, say_input_fault};

/// Why rows aren't followed to their end.
#[derive(Clone, Copy, Debug)]
pub enum Stop<'a> {
    /// The file of this name couldn't be read.
    Read(&'a str),
    /// In this folder, the file of this name couldn't be read.
    ReadIn(&'a str, &'a str),
    /// The output couldn't be written.
    Write,
    /// Memory was wanted.
    Memory,
}

/// What stops where lines couldn't be written.
pub(crate) fn put_stop<'a>(fault: Fault) -> Stop<'a>
    requires { fault ≢ Read }
    ensures { fault_of result ≡ fault }
{
    match fault {
        Fault::Memory => Stop::Memory,
        Fault::Read | Fault::Write => Stop::Write,
    }
}

/// Tells why rows weren't followed to their end, and answers it.
pub fn say_stop<E: Sink>(err: &mut E, stop: Stop<'_>) -> Status
    ensures { SaysFault (fault_of stop.entry) (name_of stop.entry) (E.state err.old) (E.state err.new) result }
{
    match stop {
        Stop::Read(name) => say_fault(err, Fault::Read, name),
        Stop::ReadIn(folder, name) => say_input_fault(err, InputFault::ReadIn(folder, name)),
        Stop::Write => say_fault(err, Fault::Write, ""),
        Stop::Memory => say_fault(err, Fault::Memory, ""),
    }
}
