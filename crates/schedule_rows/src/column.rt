//! The columns that are read.

ghost use Rattle.std.specs.Prelude.{◌≡◌, ◌<◌};
ghost use Rattle.schedule_rows.specs.Columns.{is_required, name_of, number_of};

/// A column that some timetable file has. (GTFS Schedule Reference, "Field Definitions".)
#[derive(Clone, Copy, Debug, PartialEq, Eq)]
pub enum Column {
    AgencyId,
    StopId,
    LocationType,
    RouteId,
    ServiceId,
    TripId,
    DirectionId,
    ArrivalTime,
    DepartureTime,
    StopSequence,
    Monday,
    Tuesday,
    Wednesday,
    Thursday,
    Friday,
    Saturday,
    Sunday,
    StartDate,
    EndDate,
    Date,
    ExceptionType,
    StartTime,
    EndTime,
    HeadwaySecs,
    ExactTimes,
}

impl Column {
    /// Every column, in the order of their numbers.
    pub(crate) const ALL: [Column; 25] = [
        Column::AgencyId,
        Column::StopId,
        Column::LocationType,
        Column::RouteId,
        Column::ServiceId,
        Column::TripId,
        Column::DirectionId,
        Column::ArrivalTime,
        Column::DepartureTime,
        Column::StopSequence,
        Column::Monday,
        Column::Tuesday,
        Column::Wednesday,
        Column::Thursday,
        Column::Friday,
        Column::Saturday,
        Column::Sunday,
        Column::StartDate,
        Column::EndDate,
        Column::Date,
        Column::ExceptionType,
        Column::StartTime,
        Column::EndTime,
        Column::HeadwaySecs,
        Column::ExactTimes,
    ];

    /// The columns of the weekdays, from Monday.
    pub(crate) const WEEKDAYS: [Column; 7] = [
        Column::Monday,
        Column::Tuesday,
        Column::Wednesday,
        Column::Thursday,
        Column::Friday,
        Column::Saturday,
        Column::Sunday,
    ];

    /// The place of the column in `ALL`.
    pub(crate) fn number(self) -> usize
        ensures value { result ≡ number_of self }
        ensures within { result < 25 }
    {
        self as usize
    }

    /// The name in the header row.
    pub fn name(self) -> &'static str
        ensures { result.now ≡ name_of self }
    {
        match self {
            Column::AgencyId => "agency_id",
            Column::StopId => "stop_id",
            Column::LocationType => "location_type",
            Column::RouteId => "route_id",
            Column::ServiceId => "service_id",
            Column::TripId => "trip_id",
            Column::DirectionId => "direction_id",
            Column::ArrivalTime => "arrival_time",
            Column::DepartureTime => "departure_time",
            Column::StopSequence => "stop_sequence",
            Column::Monday => "monday",
            Column::Tuesday => "tuesday",
            Column::Wednesday => "wednesday",
            Column::Thursday => "thursday",
            Column::Friday => "friday",
            Column::Saturday => "saturday",
            Column::Sunday => "sunday",
            Column::StartDate => "start_date",
            Column::EndDate => "end_date",
            Column::Date => "date",
            Column::ExceptionType => "exception_type",
            Column::StartTime => "start_time",
            Column::EndTime => "end_time",
            Column::HeadwaySecs => "headway_secs",
            Column::ExactTimes => "exact_times",
        }
    }

    /// Whether the column must stand in the header row of each file that has it.
    pub fn is_required(self) -> bool
        ensures { result ≡ is_required self }
    {
        !matches!(
            self,
            Column::AgencyId
                | Column::LocationType
                | Column::DirectionId
                | Column::ArrivalTime
                | Column::DepartureTime
                | Column::ExactTimes
        )
    }
}
