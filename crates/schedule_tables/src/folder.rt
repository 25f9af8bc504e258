//! Timetable files of a folder.

ghost use Rattle.std.specs.Prelude.{◌≡◌, IfOk, string_bytes};
ghost use Rattle.schedule_tables.specs.Folders.{path};

use crate::fault::LoadFault;
use crate::stop_times::StopTimes;
use crate::table::{Table, absent_table, read_table};
use crate::visits::Visits;
use rt_outside::{Files, ReadEnd, read_whole};
use schedule_rows::File;
use std::alloc::{AllocError, Global};

/// The name of a file in a folder.
fn path(alloc: Global, folder: &str, file: File) -> Result<String, AllocError>
    ensures { IfOk result (λ name. string_bytes name ≡ path folder.now file) }
{
    format!(in alloc; "{folder}/{}", file.name())
}

/// What tables are read from.
#[derive(Clone, Copy, Debug)]
pub struct Folder<'a> {
    /// The folder's name.
    pub name: &'a str,
    /// How many bytes a file may have.
    pub limit: usize,
    /// How many ids are awaited in the first table, 0 where nothing is known.
    pub awaited: usize,
}

/// One table, or several that are read one after the other.
pub trait Source: Sized {
    ghost use Rattle.std.specs.Prelude.{◌≡◌, ◌≤◌, ℕ, List, Result, IfOk, IfSome, Err};
    ghost use Rattle.rt_outside.specs.Causes.{Rose};
    ghost use Rattle.rt_outside.specs.Store.{Contents, contents_told};
    ghost use Rattle.schedule_tables.specs.Folders.{Answers, path};
    ghost use Rattle.schedule_tables.specs.declared.fault.LoadFault.{LoadFault};
    ghost use Rattle.schedule_tables.specs.declared.fault.LoadFault.TheVariants as fault;
    ghost use Rattle.schedule_rows.specs.declared.file.File.{File};

    ghost tables: { ℕ → List ℕ → Contents → Result Self LoadFault };

    ghost read: { Self → Type 0 };

    /// How many ids the table after it may have too, 0 where nothing is known.
    fn known_ids(&self) -> usize {
        0
    }

    /// Reads the files from a folder.
    fn load<F: Files>(alloc: Global, files: &mut F, from: Folder<'_>) -> Result<Self, LoadFault>
        ensures tables { IfSome (contents_told (F.state files.old).told)
            (λ contents. Answers (tables from.entry.limit from.entry.name.now contents) result) }
        ensures read { IfOk result read }
        ensures contents { contents_told (F.state files.new).told ≡ contents_told (F.state files.old).told }
        ensures later { (F.state files.old).faults ≤ (F.state files.new).faults }
        ensures cause { (file : File) → result ≡ Err (fault.ReadFault file)
            → Rose (F.state files.old).faults (F.state files.new).faults }
        ensures asked { (file : File) → result ≡ Err (fault.ReadFault file)
            → IfSome (F.state files.new).asked (λ last. last ≡ path from.entry.name.now file) };
}

/// A table that one file fills.
impl<T: Table + Drop> Source for T {
    ghost use Rattle.schedule_tables.specs.Folders.{IsRead, table_of_file};

    ghost tables = { λ limit folder contents. table_of_file T.format limit folder contents };

    ghost read = { IsRead T.format };

    fn known_ids(&self) -> usize {
        self.ids()
    }

    fn load<F: Files>(alloc: Global, files: &mut F, from: Folder<'_>) -> Result<T, LoadFault> {
        let name = path(alloc, from.name, T::file())?;
        match read_whole(alloc, files, name.as_str(), from.limit) {
            Ok(bytes) => read_table(alloc, bytes.as_slice(), from.awaited),
            Err(ReadEnd::Absent) => absent_table(alloc),
            Err(ReadEnd::TooLarge) => Err(LoadFault::TooLarge(T::file())),
            Err(ReadEnd::ReadFault) => Err(LoadFault::ReadFault(T::file())),
            Err(ReadEnd::Memory) => Err(LoadFault::Memory),
        }
    }
}

impl Source for StopTimes {
    ghost use Rattle.schedule_tables.specs.Folders.{IsRead, table_of_file};
    ghost use Rattle.schedule_tables.specs.Stops.{visits};

    ghost tables = { λ limit folder contents. table_of_file visits limit folder contents };

    ghost read = { IsRead visits };

    fn load<F: Files>(
        alloc: Global,
        files: &mut F,
        from: Folder<'_>,
    ) -> Result<StopTimes, LoadFault> {
        let visits = Visits::load(alloc, files, from)?;
        Ok(visits.settled(alloc)?)
    }
}

impl<A: Source + Drop, B: Source + Drop> Source for (A, B) {
    ghost use Rattle.schedule_tables.specs.Folders.{both};

    ghost tables = { λ limit folder contents. both (A.tables limit folder contents) (B.tables limit folder contents) };

    ghost read = { λ pair. A.read pair.0 × B.read pair.1 };

    fn load<F: Files>(alloc: Global, files: &mut F, from: Folder<'_>) -> Result<(A, B), LoadFault> {
        let first = A::load(alloc, files, from)?;
        let awaited = first.known_ids();
        let second = B::load(alloc, files, Folder { awaited, ..from })?;
        Ok((first, second))
    }
}
