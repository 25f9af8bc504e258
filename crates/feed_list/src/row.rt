//! A row of a list.
ghost use Rattle.std.specs.Prelude.{◌≡◌, ◌≢◌, Ok, Err, IfOk, IfErr, option_map, bytes_eq};
ghost use Rattle.csv.specs.Records.{fields_of};
ghost use Rattle.csv_records.specs.Texts.{texts};
ghost use Rattle.feed_list.specs.Rows.{empty_of, fields_in, path_in, row_of, snapshot_of, text_in, timetable_of, timetable_word, value_in};
ghost use Rattle.feed_list.specs.Values.{feed_of, number_of};
ghost use Rattle.feed_list.specs.Fields.{fields_held};
ghost use Rattle.feed_list.specs.declared.column.Column.TheVariants.{Feed, Moment};
ghost use Rattle.feed_list.specs.declared.fault.ListFault.TheVariants as fault;

use crate::column::Column;
use crate::fault::ListFault;
use crate::feed::feed_of;
use csv::ByteRecord;
use csv_records::text_of;
use feed_values::Text;
use rt_words::{is_path, number_of};
use std::alloc::Global;

/// What comes next: a snapshot of a feed, or the timetable that is in force from there on.
#[derive(Drop)]
pub enum ListRow {
    Snapshot(SnapshotRow),
    /// The path of the timetable's folder.
    Timetable(Text),
}

/// A snapshot that comes: the number of its feed, which is at most 15; the moment at which it came, as POSIX time in
/// seconds; and the path of its file.
#[derive(Drop)]
pub struct SnapshotRow {
    pub feed: u8,
    pub moment: u64,
    pub path: Text,
}

/// The three fields of a row, as they stand.
#[derive(Clone, Copy)]
pub struct RowFields<'a> {
    feed: &'a [u8],
    moment: &'a [u8],
    path: &'a [u8],
}

/// The row that a record is, whose number is told in a fault.
pub fn row_of(alloc: Global, number: u64, row: &ByteRecord) -> Result<ListRow, ListFault>
    ensures ok { IfOk result (λ found. row_of number (fields_of row.now) ≡ Ok found) }
    ensures err { IfErr result (λ e. e ≢ fault.Memory → row_of number (fields_of row.now) ≡ Err e) }
{
    let Some(fields) = fields_in(row) else {
        return Err(ListFault::NotThreeFields(number));
    };
    if is_timetable(fields.feed) {
        timetable_of(alloc, number, fields)
    } else {
        snapshot_of(alloc, number, fields)
    }
}

fn is_timetable(field: &[u8]) -> bool
    ensures { result ≡ bytes_eq field.now timetable_word }
{
    field == b"timetable".as_slice()
}

/// The row of a timetable, which comes at no moment.
fn timetable_of(alloc: Global, number: u64, fields: RowFields<'_>) -> Result<ListRow, ListFault>
    ensures ok { IfOk result (λ found. timetable_of number (fields_held fields.entry) ≡ Ok found) }
    ensures err { IfErr result (λ e. e ≢ fault.Memory → timetable_of number (fields_held fields.entry) ≡ Err e) }
{
    no_moment_in(number, fields.moment)?;
    let folder = path_in(alloc, number, fields.path)?;
    Ok(ListRow::Timetable(folder))
}

fn snapshot_of(alloc: Global, number: u64, fields: RowFields<'_>) -> Result<ListRow, ListFault>
    ensures ok { IfOk result (λ found. snapshot_of number (fields_held fields.entry) ≡ Ok found) }
    ensures err { IfErr result (λ e. e ≢ fault.Memory → snapshot_of number (fields_held fields.entry) ≡ Err e) }
{
    let feed = feed_in(number, fields.feed)?;
    let moment = moment_in(number, fields.moment)?;
    let path = path_in(alloc, number, fields.path)?;
    Ok(ListRow::Snapshot(SnapshotRow { feed, moment, path }))
}

fn fields_in(row: &ByteRecord) -> Option<RowFields<'_>>
    ensures { option_map fields_held result ≡ fields_in (fields_of row.now) }
{
    if row.len() != 3 {
        return None;
    }
    Some(RowFields {
        feed: row.get(0)?,
        moment: row.get(1)?,
        path: row.get(2)?,
    })
}

/// A field as text.
fn text_in(number: u64, column: Column, field: &[u8]) -> Result<&str, ListFault>
    ensures { texts result ≡ text_in number column field.now }
{
    match text_of(field) {
        Some(text) => Ok(text),
        None => Err(ListFault::NotText(number, column)),
    }
}

fn feed_in(number: u64, field: &[u8]) -> Result<u8, ListFault>
    ensures { result ≡ value_in feed_of number Feed field.now }
{
    let text = text_in(number, Column::Feed, field)?;
    feed_of(text).ok_or(ListFault::BadValue(number, Column::Feed))
}

fn moment_in(number: u64, field: &[u8]) -> Result<u64, ListFault>
    ensures { result ≡ value_in number_of number Moment field.now }
{
    let text = text_in(number, Column::Moment, field)?;
    number_of(text).ok_or(ListFault::BadValue(number, Column::Moment))
}

/// An empty field, where a moment would stand.
fn no_moment_in(number: u64, field: &[u8]) -> Result<&str, ListFault>
    ensures { texts result ≡ value_in empty_of number Moment field.now }
{
    let text = text_in(number, Column::Moment, field)?;
    if text.is_empty() {
        Ok(text)
    } else {
        Err(ListFault::BadValue(number, Column::Moment))
    }
}

fn path_in(alloc: Global, number: u64, field: &[u8]) -> Result<Text, ListFault>
    ensures ok { IfOk result (λ path. path_in number field.now ≡ Ok path) }
    ensures err { IfErr result (λ e. e ≢ fault.Memory → path_in number field.now ≡ Err e) }
{
    let text = text_in(number, Column::Path, field)?;
    if !is_path(text) {
        return Err(ListFault::BadValue(number, Column::Path));
    }
    Ok(Text::of(alloc, text)?)
}
