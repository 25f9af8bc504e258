//! What is told of a timetable that isn't loaded.
ghost use Rattle.std.specs.Prelude.{◌≡◌, IfOk, string_bytes};
ghost use Rattle.run_timetable.specs.Timetables.{TellsLoadFault, in_folder, refusal_text, why_refused};

use run_base::InputFault;
use std::alloc::{AllocError, Global};
use timetable::LoadFault;

/// Why the timetable in this folder isn't had, as it is told.
pub fn load_fault(alloc: Global, folder: &str, fault: LoadFault) -> InputFault<'_>
    ensures { TellsLoadFault folder.now fault result }
{
    match fault {
        LoadFault::ReadFault(file) => InputFault::ReadIn(folder, file.name()),
        LoadFault::Memory => InputFault::Memory,
        _ => match refusal_text(alloc, folder, fault) {
            Ok(text) => InputFault::Refused(text),
            Err(_) => InputFault::Memory,
        },
    }
}

// The text of a refused timetable.
fn refusal_text(alloc: Global, folder: &str, fault: LoadFault) -> Result<String, AllocError>
    ensures { IfOk result (λ text. string_bytes text ≡ refusal_text folder.now fault) }
{
    let why = why_refused(alloc, folder, fault)?;
    format!(in alloc; "refused: {why}\n")
}

// A fault of a file, in its folder.
fn in_folder(alloc: Global, folder: &str, fault: LoadFault) -> Result<String, AllocError>
    ensures { IfOk result (λ text. string_bytes text ≡ in_folder folder.now fault) }
{
    let text = fault.text(alloc)?;
    format!(in alloc; "{folder}/{text}")
}

/// Why the timetable in this folder is refused: the file, and what is wrong there. It is empty where the fault is none of its files.
#[tactic(auto, using(crate::proofs::GivenTable::refused_in))]
pub fn why_refused(alloc: Global, folder: &str, fault: LoadFault) -> Result<String, AllocError>
    ensures { IfOk result (λ text. string_bytes text ≡ why_refused folder.now fault) }
{
    match fault {
        LoadFault::ReadFault(_) | LoadFault::Memory => Ok(String::new(alloc)),
        _ => in_folder(alloc, folder, fault),
    }
}
