//! The fields of a record, without their blanks.

ghost use Rattle.std.specs.Prelude.{◌≡◌};
ghost use Rattle.csv.specs.Records.{fields_of};
ghost use Rattle.schedule_rows.specs.Fields.{field_in, is_blank, place_of, trim_back, trim_front, trimmed};

use csv::ByteRecord;

fn is_blank(byte: u8) -> bool
    ensures { result ≡ is_blank byte }
{
    byte == b' ' || byte == b'\t'
}

fn trim_front(bytes: &[u8]) -> &[u8]
    ensures { result.now ≡ trim_front bytes.now }
{
    let mut left = bytes;
    while let [first, rest @ ..] = left {
        if !is_blank(*first) {
            break;
        }
        left = rest;
    }
    left
}

fn trim_back(bytes: &[u8]) -> &[u8]
    ensures { result.now ≡ trim_back bytes.now }
{
    let mut left = bytes;
    while let [rest @ .., last] = left {
        if !is_blank(*last) {
            break;
        }
        left = rest;
    }
    left
}

fn trimmed(bytes: &[u8]) -> &[u8]
    ensures { result.now ≡ trimmed bytes.now }
{
    trim_back(trim_front(bytes))
}

/// A row's field at a place, and blank where there is none.
pub(crate) fn field_in(row: &ByteRecord, place: Option<usize>) -> &[u8]
    ensures { result.now ≡ field_in place (fields_of row.now) }
{
    let field = match place {
        Some(at) => row.get(at).unwrap_or(&[]),
        None => &[],
    };
    trimmed(field)
}

/// The place of the first field of this name.
pub(crate) fn find_place(header: &ByteRecord, name: &[u8]) -> Option<usize>
    ensures { result ≡ place_of name.now (fields_of header.now) }
{
    for at in 0..header.len() {
        if name == field_in(header, Some(at)) {
            return Some(at);
        }
    }
    None
}
