//! A list that is read from its file.
ghost use Rattle.std.specs.Prelude.{◌≡◌, ◌≢◌, ◌≤◌, ◌<◌, length, Ok, Err, IfSome, IfOk, IfErr, IsErrOf};
ghost use Rattle.std.specs.FinMap.{get};
ghost use Rattle.rt_outside.specs.Causes.{Rose};
ghost use Rattle.rt_outside.specs.Store.{contents_told};
ghost use Rattle.feed_list.specs.Lists.{list_in, IsWithinLimits};
ghost use Rattle.feed_list.specs.declared.fault.ListFault.TheVariants as fault;

use crate::fault::ListFault;
use crate::row::ListRow;
use crate::rows::list_of;
use feed_values::Items;
use rt_outside::{Files, ReadEnd, read_whole};
use std::alloc::Global;

/// The most bytes that the file of a list has.
const BYTE_LIMIT: usize = 134_217_728;

/// The list in the file of this name, or its first fault.
///
/// The file is CSV without a header row (RFC 4180), of which empty lines are no rows and a byte order mark at the start is
/// no part. An empty file is an empty list. Fields are taken as they stand: blanks count. A number is 1 to 20 digits, which
/// may begin with zeros, and its value fits 64 bits. A path isn't empty and doesn't begin with a dash.
pub fn read_list<F: Files>(
    alloc: Global,
    files: &mut F,
    name: &str,
) -> Result<Items<ListRow>, ListFault>
    ensures ok { IfSome (contents_told (F.state files.old).told) (λ held. IfOk result (λ list. list_in (get held name.now) ≡ Ok list)) }
    ensures err { IfSome (contents_told (F.state files.old).told) (λ held. IfErr result (λ e.
        e ≢ fault.ReadFault → e ≢ fault.Memory → list_in (get held name.now) ≡ Err e)) }
    ensures limits { IfOk result IsWithinLimits }
    ensures contents { contents_told (F.state files.new).told ≡ contents_told (F.state files.old).told }
    ensures asked { IfSome (F.state files.new).asked (λ last. last ≡ name.now) }
    ensures later { (F.state files.old).faults ≤ (F.state files.new).faults }
    ensures cause { IsErrOf result fault.ReadFault → Rose (F.state files.old).faults (F.state files.new).faults }
{
    match read_whole(alloc, files, name, BYTE_LIMIT) {
        Ok(bytes) => list_of(alloc, &bytes),
        Err(ReadEnd::Absent) => Err(ListFault::MissingFile),
        Err(ReadEnd::TooLarge) => Err(ListFault::TooLarge),
        Err(ReadEnd::ReadFault) => Err(ListFault::ReadFault),
        Err(ReadEnd::Memory) => Err(ListFault::Memory),
    }
}
