//! The timetable of a folder that may be given.
ghost use Rattle.std.specs.Prelude.{◌≡◌, ◌≤◌, IfSome, IfOk, IfErr, option_copied};
ghost use Rattle.rt_outside.specs.Store.{contents_told};
ghost use Rattle.run_base.specs.Inputs.{FailsAt, TellsInput};
ghost use Rattle.run_timetable.specs.Timetables.{IsGiven, IsLoadText, IsTableFile};

use crate::refusal::load_fault;
use feed_values::Text;
use rt_outside::Files;
use run_base::InputFault;
use std::alloc::Global;
use timetable::Timetable;

/// The timetable in the folder, or one that is absent where no folder is given: the rules against the timetable then find nothing.
pub fn load_given<'a, F: Files>(
    alloc: Global,
    files: &mut F,
    folder: Option<&'a Text>,
) -> Result<Timetable, InputFault<'a>>
    ensures given { IfSome (contents_told (F.state files.old).told) (λ held. IfOk result (IsGiven (option_copied folder.entry) held)) }
    ensures refused { IfErr result (TellsInput (FailsAt (IsTableFile (option_copied folder.entry)) (F.state files.old) (F.state files.new))
        (IsLoadText (contents_told (F.state files.old).told) (option_copied folder.entry))) }
    ensures contents { contents_told (F.state files.new).told ≡ contents_told (F.state files.old).told }
    ensures later { (F.state files.old).faults ≤ (F.state files.new).faults }
{
    match folder {
        None => Ok(Timetable::absent(alloc)),
        Some(folder) => {
            let folder = folder.as_str();
            match Timetable::load(alloc, files, folder) {
                Ok(timetable) => Ok(timetable),
                Err(fault) => Err(load_fault(alloc, folder, fault)),
            }
        }
    }
}
