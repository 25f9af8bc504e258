//! The names of the snapshots' files.

use crate::trouble::Trouble;
use clap::ArgMatches;
use feed_list::{ListFault, ListRow, read_list};
use feed_values::Text;
use rt_outside::RealFiles;
use std::alloc::AllocError;

/// The names that the words give, by row: those of `--files`, or the paths of the list.
pub fn names_of(rt: &HostRuntime, matches: &ArgMatches<'_>) -> Result<Vec<Text>, Trouble> {
    match matches.get_str("list") {
        Some(list) => listed(rt, list),
        None => given(rt, matches),
    }
}

fn given(rt: &HostRuntime, matches: &ArgMatches<'_>) -> Result<Vec<Text>, Trouble> {
    let mut names = Vec::new(rt.alloc());
    if let Some(files) = matches.get_strs("files") {
        for file in files {
            names
                .push(Text::of(rt.alloc(), file)?)
                .map_err(AllocError::from)?;
        }
    }
    Ok(names)
}

fn listed(rt: &HostRuntime, list: &str) -> Result<Vec<Text>, Trouble> {
    let rows = match read_list(rt.alloc(), &mut RealFiles::new(rt), list) {
        Ok(rows) => rows,
        Err(ListFault::ReadFault) => return Err(Trouble::read(rt.alloc(), list)),
        Err(ListFault::Memory) => return Err(Trouble::Memory),
        Err(fault) => {
            let why = fault.text(rt.alloc())?;
            return Err(Trouble::refused(rt.alloc(), list, why.as_str()));
        }
    };
    let mut names = Vec::with_capacity(rt.alloc(), rows.as_slice().len())?;
    for row in rows.into_vec() {
        names.push(path_in(row)).map_err(AllocError::from)?;
    }
    Ok(names)
}

// The path that a row has: of a snapshot's file, or of a timetable's folder.
fn path_in(row: ListRow) -> Text {
    match row {
        ListRow::Snapshot(row) => row.path,
        ListRow::Timetable(folder) => folder,
    }
}
