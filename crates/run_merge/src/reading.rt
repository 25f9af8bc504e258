//! All files, read before anything is written.
ghost use Rattle.std.specs.Prelude.{◌≡◌, ◌≤◌, ◌+◌, map, length, IfSome, IfOk, IfErr, IsErrOf, OnOk, Contains};
ghost use Rattle.std.specs.FinMap.{get};
ghost use Rattle.rt_outside.specs.Causes.{Rose};
ghost use Rattle.rt_outside.specs.Store.{contents_told};
ghost use Rattle.run_base.specs.Found.{bytes_in};
ghost use Rattle.run_base.specs.Inputs.{FailsAt, TellsInput};
ghost use Rattle.run_merge.specs.Gathering.{Adds, IsGathered};
ghost use Rattle.run_merge.specs.Merged.{found_in};

use crate::gathered::Gathered;
use feed_values::{Items, Text};
use rt_outside::Files;
use run_base::{Fault, InputFault, read_kept};
use std::alloc::Global;

// Adds the snapshot in the file of this name, whose number counts from 0.
fn add_file<F: Files>(
    alloc: Global,
    number: usize,
    name: &str,
    files: &mut F,
    gathered: &mut Gathered,
) -> Result<(), Fault>
    ensures adds { IfSome (contents_told (F.state files.old).told) (λ held.
        OnOk result (Adds number (bytes_in (get held name.now)) gathered.old gathered.new)) }
    ensures few { OnOk result (length gathered.new.feeds ≤ length gathered.old.feeds + 1) }
    ensures contents { contents_told (F.state files.new).told ≡ contents_told (F.state files.old).told }
    ensures asked { IfSome (F.state files.new).asked (λ last. last ≡ name.now) }
    ensures later { (F.state files.old).faults ≤ (F.state files.new).faults }
    ensures read { IsErrOf result Fault.Read → Rose (F.state files.old).faults (F.state files.new).faults }
{
    let found = read_kept(alloc, files, name, None)?;
    gathered.add(alloc, number as u64, found)?;
    Ok(())
}

/// What the files of these names hold, or why one of them couldn't be read. A file that isn't there is a refused snapshot.
pub fn read_all<'a, F: Files>(
    alloc: Global,
    names: &'a Items<Text>,
    files: &mut F,
) -> Result<Gathered, InputFault<'a>>
    ensures found { IfSome (contents_told (F.state files.old).told) (λ held. IfOk result (IsGathered (found_in held names.now))) }
    ensures few { IfOk result (λ gathered. length gathered.feeds ≤ length names.now) }
    ensures contents { contents_told (F.state files.new).told ≡ contents_told (F.state files.old).told }
    ensures later { (F.state files.old).faults ≤ (F.state files.new).faults }
    ensures fault { IfErr result (TellsInput (FailsAt (Contains names.now) (F.state files.old) (F.state files.new)) (λ text. ⊥)) }
{
    let mut gathered = Gathered::new(alloc);
    for (number, name) in names.as_slice().iter().enumerate() {
        match add_file(alloc, number, name.as_str(), files, &mut gathered) {
            Ok(()) => {}
            Err(Fault::Read) => return Err(InputFault::Read(name.as_str())),
            Err(_) => return Err(InputFault::Memory),
        }
    }
    Ok(gathered)
}
