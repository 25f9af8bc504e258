//! Why an input of a command isn't had.
ghost use Rattle.run_base.specs.Inputs.{SaysInputFault};

use crate::saying::{say, say_memory, say_read_fault, say_read_fault_in};
use crate::status::Status;
use rt_outside::Sink;

/// Why an input of a command, which is a file, a folder or what the words say, isn't had.
#[derive(Debug, Drop)]
pub enum InputFault<'a> {
    /// The file of this name couldn't be read.
    Read(&'a str),
    /// In the folder of the first name, the file of the second couldn't be read.
    ReadIn(&'a str, &'a str),
    /// No memory was found.
    Memory,
    /// The input is refused, and this text says why.
    Refused(String),
}

/// Tells why an input isn't had, and answers it. For a read fault it takes no memory.
pub fn say_input_fault<E: Sink>(err: &mut E, fault: InputFault<'_>) -> Status
    ensures { SaysInputFault fault.entry (E.state err.old) (E.state err.new) result }
{
    match fault {
        InputFault::Read(name) => say_read_fault(err, name),
        InputFault::ReadIn(folder, name) => say_read_fault_in(err, folder, name),
        InputFault::Memory => say_memory(err),
        InputFault::Refused(text) => say(err, text.as_bytes(), Status::Refused),
    }
}
