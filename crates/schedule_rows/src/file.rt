//! The files of a timetable.

ghost use Rattle.std.specs.Prelude.{◌≡◌};
ghost use Rattle.schedule_rows.specs.Files.{columns_of, file_name, must_stand};

use crate::column::Column;

/// A file that is read, in the order of reading. (GTFS Schedule Reference, "Dataset Files".)
#[derive(Clone, Copy, Debug, PartialEq, Eq)]
pub enum File {
    Agency,
    Stops,
    Routes,
    Trips,
    StopTimes,
    Calendar,
    CalendarDates,
    Frequencies,
}

impl File {
    /// The file's name in the timetable's folder.
    pub fn name(self) -> &'static str
        ensures { result.now ≡ file_name self }
    {
        match self {
            File::Agency => "agency.txt",
            File::Stops => "stops.txt",
            File::Routes => "routes.txt",
            File::Trips => "trips.txt",
            File::StopTimes => "stop_times.txt",
            File::Calendar => "calendar.txt",
            File::CalendarDates => "calendar_dates.txt",
            File::Frequencies => "frequencies.txt",
        }
    }

    /// Whether a timetable without the file is refused.
    pub fn is_required(self) -> bool
        ensures { result ≡ must_stand self }
    {
        !matches!(
            self,
            File::Calendar | File::CalendarDates | File::Frequencies
        )
    }

    /// The columns that are read, in the order in which they are checked.
    pub fn columns(self) -> &'static [Column]
        ensures { result.now ≡ columns_of self }
    {
        match self {
            File::Agency => &[Column::AgencyId],
            File::Stops => &[Column::StopId, Column::LocationType],
            File::Routes => &[Column::RouteId],
            File::Trips => &[
                Column::RouteId,
                Column::ServiceId,
                Column::TripId,
                Column::DirectionId,
            ],
            File::StopTimes => &[
                Column::TripId,
                Column::ArrivalTime,
                Column::DepartureTime,
                Column::StopId,
                Column::StopSequence,
            ],
            File::Calendar => &[
                Column::ServiceId,
                Column::Monday,
                Column::Tuesday,
                Column::Wednesday,
                Column::Thursday,
                Column::Friday,
                Column::Saturday,
                Column::Sunday,
                Column::StartDate,
                Column::EndDate,
            ],
            File::CalendarDates => &[Column::ServiceId, Column::Date, Column::ExceptionType],
            File::Frequencies => &[
                Column::TripId,
                Column::StartTime,
                Column::EndTime,
                Column::HeadwaySecs,
                Column::ExactTimes,
            ],
        }
    }
}
