//! The rows of a list in memory.
ghost use Rattle.std.specs.Prelude.{◌≡◌, ◌≢◌, ◌≤◌, ◌<◌, ◌^◌, ◌++◌, ◌∷◌, [], length, nat_lt, Ok, Err, IfOk, IfErr, OnOk};
ghost use Rattle.std.specs.List.{AllByRecursion};
ghost use Rattle.csv_records.specs.Records.{records_of};
ghost use Rattle.feed_list.specs.Lists.{list_of, row_limit, rows_from, IsWithinLimits};
ghost use Rattle.feed_list.specs.declared.fault.ListFault.TheVariants as fault;

use crate::fault::ListFault;
use crate::row::{ListRow, row_of};
use csv::ByteRecord;
use csv_records::Records;
use feed_values::Items;
use std::alloc::{AllocError, Global};

/// The most rows that a list has.
const ROW_LIMIT: usize = 1_000_000;

/// The list that the bytes of a file are, of any size.
pub fn list_of(alloc: Global, bytes: &[u8]) -> Result<Items<ListRow>, ListFault>
    ensures ok { IfOk result (λ list. list_of (records_of bytes.now) ≡ Ok list) }
    ensures err { IfErr result (λ e. e ≢ fault.Memory → list_of (records_of bytes.now) ≡ Err e) }
    ensures limits { IfOk result IsWithinLimits }
{
    if has_many_rows(alloc, bytes)? {
        return Err(ListFault::TooLarge);
    }
    read_rows(alloc, Records::new(alloc, bytes))
}

fn has_many_rows(alloc: Global, bytes: &[u8]) -> Result<bool, AllocError>
    ensures { IfOk result (λ many. many ≡ nat_lt row_limit (length (records_of bytes.now))) }
{
    let mut rows = Records::new(alloc, bytes);
    let mut record = ByteRecord::new(alloc);
    let mut count = 0;
    while rows.next(&mut record)? {
        count += 1;
    }
    Ok(count > ROW_LIMIT)
}

fn read_rows(alloc: Global, mut rows: Records<'_>) -> Result<Items<ListRow>, ListFault>
    requires { length rows ≤ row_limit }
    ensures ok { IfOk result (λ list. rows_from 1 rows.entry ≡ Ok list) }
    ensures err { IfErr result (λ e. e ≢ fault.Memory → rows_from 1 rows.entry ≡ Err e) }
{
    let mut record = ByteRecord::new(alloc);
    let mut list = Items::new(alloc);
    let mut number = 1;
    while rows.next(&mut record)? {
        let row = row_of(alloc, number, &record)?;
        push_row(&mut list, row)?;
        number += 1;
    }
    Ok(list)
}

fn push_row(list: &mut Items<ListRow>, row: ListRow) -> Result<(), AllocError>
    ensures { OnOk result (list.new ≡ list.old ++ row ∷ []) }
{
    list.push(row)?;
    Ok(())
}
