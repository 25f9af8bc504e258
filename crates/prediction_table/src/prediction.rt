//! The rows of the table of stop events.
ghost use Rattle.std.specs.Prelude.{◌≡◌, ◌++◌, ◌∷◌, [], List, ℕ, IfOk, IfSome, OnOk, flat_map, option_map, string_bytes, unwrap_or};
ghost use Rattle.csv.specs.Records.{fields_of, partial_of};
ghost use Rattle.csv.specs.Writing.{default_writer, row_text};
ghost use Rattle.rt_day.specs.Date.{IsYearInRange};
ghost use Rattle.prediction_table.specs.Predictions.{AreRows, IsDayField, count_field, event_fields, event_name, head_text, number_field, prediction_text, source_field, state_name};
ghost use Rattle.prediction_table.specs.Writing.{HasWritten};

use crate::date_text::date_text;
use csv::{ByteRecord, Writer, WriterBuilder};
use feed_values::{Text, TripUpdate};
use propagation::{EventKind, PredictionRow, Predictions, RowState, Source};
use rt_day::Day;
use std::alloc::{AllocError, Global};

/// The header row of the table of stop events, with the names of its columns.
pub fn prediction_head(alloc: Global) -> Result<Vec<u8>, AllocError>
    ensures { IfOk result (λ bytes. bytes.items ≡ head_text) }
{
    Vec::from_slice(
        alloc,
        b"entity,occurrence,trip_id,service_day,stop_sequence,stop_id,event,scheduled,predicted,delay,source,state\n",
    )
}

/// The rows of what is predicted of the trip update of an entity. `occurrence` is how many entities of the snapshot with the
/// entity's `id` stand before it. Times are POSIX seconds, delays seconds; what isn't said is an empty field. (RFC 4180.)
pub fn prediction_rows(
    alloc: Global,
    id: &str,
    occurrence: u32,
    update: &TripUpdate,
    predictions: &Predictions,
) -> Result<Vec<u8>, AllocError>
    ensures { IfOk result (λ bytes. AreRows id.now occurrence update.now predictions.now bytes.items) }
{
    let day = day_field(alloc, predictions.day())?;
    let occurrence = format!(in alloc; "{occurrence}")?;
    rows_text(
        alloc,
        id,
        occurrence.as_str(),
        text_field(&update.trip.trip_id),
        day.as_str(),
        predictions.rows(),
    )
}

fn event_name(event: EventKind) -> &'static str
    ensures { result.now ≡ event_name event }
{
    match event {
        EventKind::Arrival => "arrival",
        EventKind::Departure => "departure",
        EventKind::Trip => "trip",
        EventKind::Update => "update",
    }
}

fn state_name(state: RowState) -> &'static str
    ensures { result.now ≡ state_name state }
{
    match state {
        RowState::Predicted => "predicted",
        RowState::Stated => "stated",
        RowState::Skipped => "skipped",
        RowState::NoData => "no_data",
        RowState::Unknown => "unknown",
        RowState::Untimed => "untimed",
        RowState::Canceled => "canceled",
        RowState::Unmatched => "unmatched",
    }
}

fn source_field(alloc: Global, source: Source) -> Result<String, AllocError>
    ensures { IfOk result (λ field. string_bytes field ≡ source_field source) }
{
    match source {
        Source::Blank => Ok(String::new(alloc)),
        Source::Trip => String::from_str(alloc, "trip"),
        Source::Update(index) => format!(in alloc; "{index}"),
    }
}

fn count_field(alloc: Global, count: Option<u32>) -> Result<String, AllocError>
    ensures { IfOk result (λ field. string_bytes field ≡ count_field count) }
{
    match count {
        Some(count) => format!(in alloc; "{count}"),
        None => Ok(String::new(alloc)),
    }
}

fn number_field(alloc: Global, number: Option<i128>) -> Result<String, AllocError>
    ensures { IfOk result (λ field. string_bytes field ≡ number_field number) }
{
    match number {
        Some(number) => format!(in alloc; "{number}"),
        None => Ok(String::new(alloc)),
    }
}

fn day_field(alloc: Global, day: Option<Day>) -> Result<String, AllocError>
    requires { IfSome day (λ day. IsYearInRange day.number) }
    ensures { IfOk result (λ field. IsDayField (option_map (λ day. day.number) day) (string_bytes field)) }
{
    match day {
        Some(day) => date_text(alloc, day),
        None => Ok(String::new(alloc)),
    }
}

fn text_field(text: &Option<Text>) -> &str
    ensures { result.now ≡ unwrap_or text.now [] }
{
    match text {
        Some(text) => text.as_str(),
        None => "",
    }
}

// Appends the fields that all rows of a trip update have.
fn push_key(
    fields: &mut ByteRecord,
    id: &str,
    occurrence: &str,
    trip: &str,
    day: &str,
) -> Result<(), AllocError>
    requires { partial_of fields.old ≡ [] }
    ensures appended { OnOk result (fields_of fields.new ≡ fields_of fields.old ++ id.now ∷ occurrence.now ∷ trip.now ∷ day.now ∷ []) }
    ensures partial { OnOk result (partial_of fields.new ≡ []) }
{
    fields.push_field(id.as_bytes())?;
    fields.push_field(occurrence.as_bytes())?;
    fields.push_field(trip.as_bytes())?;
    fields.push_field(day.as_bytes())
}

// Appends the fields that are a row's own.
fn push_event(alloc: Global, fields: &mut ByteRecord, row: &PredictionRow) -> Result<(), AllocError>
    requires { partial_of fields.old ≡ [] }
    ensures { OnOk result (fields_of fields.new ≡ fields_of fields.old ++ event_fields row.now) }
{
    let sequence = count_field(alloc, row.stop_sequence)?;
    let scheduled = number_field(alloc, row.scheduled)?;
    let predicted = number_field(alloc, row.predicted)?;
    let delay = number_field(alloc, row.delay)?;
    let source = source_field(alloc, row.source)?;
    fields.push_field(sequence.as_bytes())?;
    fields.push_field(text_field(&row.stop_id).as_bytes())?;
    fields.push_field(event_name(row.event).as_bytes())?;
    fields.push_field(scheduled.as_bytes())?;
    fields.push_field(predicted.as_bytes())?;
    fields.push_field(delay.as_bytes())?;
    fields.push_field(source.as_bytes())?;
    fields.push_field(state_name(row.state).as_bytes())
}

// Puts the fields of a row in place of others.
fn set_fields(
    alloc: Global,
    fields: &mut ByteRecord,
    id: &str,
    occurrence: &str,
    trip: &str,
    day: &str,
    row: &PredictionRow,
) -> Result<(), AllocError>
    ensures { OnOk result (fields_of fields.new ≡ (id.now ∷ occurrence.now ∷ trip.now ∷ day.now ∷ []) ++ event_fields row.now) }
{
    fields.clear();
    push_key(fields, id, occurrence, trip, day)?;
    push_event(alloc, fields, row)
}

// Writes a row of these fields.
fn write_row(writer: &mut Writer<Vec<u8>>, fields: &ByteRecord) -> Result<(), AllocError>
    ensures { OnOk result ((before : List ℕ) → HasWritten writer.old before
        → HasWritten writer.new (before ++ row_text default_writer (fields_of fields.now))) }
{
    match writer.write_byte_record(fields) {
        Ok(()) => Ok(()),
        Err(_) => Err(AllocError),
    }
}

// The text of rows that have four fields in common.
fn rows_text(
    alloc: Global,
    id: &str,
    occurrence: &str,
    trip: &str,
    day: &str,
    rows: &[PredictionRow],
) -> Result<Vec<u8>, AllocError>
    ensures { IfOk result (λ bytes. bytes.items ≡ flat_map (prediction_text (id.now ∷ occurrence.now ∷ trip.now ∷ day.now ∷ [])) rows.now) }
{
    let mut writer = WriterBuilder::new().from_writer(Vec::new(alloc));
    let mut fields = ByteRecord::new(alloc);
    for row in rows {
        set_fields(alloc, &mut fields, id, occurrence, trip, day, row)?;
        write_row(&mut writer, &fields)?;
    }
    match writer.into_inner() {
        Ok(bytes) => Ok(bytes),
        Err(_) => Err(AllocError),
    }
}
