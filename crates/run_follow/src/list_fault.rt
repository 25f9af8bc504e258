//! What is told of a list that isn't read.
ghost use Rattle.std.specs.Prelude.{◌≡◌, IfOk, string_bytes};
ghost use Rattle.feed_list.specs.Texts.{fault_text};
ghost use Rattle.run_base.specs.Faults.{refused_text};
ghost use Rattle.run_follow.specs.Follow.{TellsListFault};

use feed_list::ListFault;
use run_base::{InputFault, refused_text};
use std::alloc::{AllocError, Global};

/// Why the list in the file of this name isn't had, as it is told.
pub fn told_as(alloc: Global, list: &str, fault: ListFault) -> InputFault<'_>
    ensures { TellsListFault list.now fault result }
{
    match fault {
        ListFault::ReadFault => InputFault::Read(list),
        ListFault::Memory => InputFault::Memory,
        _ => match refused_list(alloc, list, fault) {
            Ok(text) => InputFault::Refused(text),
            Err(_) => InputFault::Memory,
        },
    }
}

// The text of a refused list.
fn refused_list(alloc: Global, list: &str, fault: ListFault) -> Result<String, AllocError>
    ensures { IfOk result (λ text. string_bytes text ≡ refused_text list.now (fault_text fault)) }
{
    let why = fault.text(alloc)?;
    refused_text(alloc, list, why.as_str())
}
