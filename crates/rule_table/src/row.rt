//! What the rows of the table of rules are made of.

use feed_values::Slot;

/// One cited fact of a row: which ask it makes, from the place and from the values cited before it, which it names by
/// their numbers from 0. At a place on a header a cell is one of the last header; at an entity it is one of the entity,
/// at the place's index where the slot leads through a list.
#[derive(Clone, Copy)]
pub enum Cite {
    /// The cell of the place.
    Place,
    /// The cell of a slot.
    Cell(Slot),
    /// The cell of a slot at the index before the place's.
    Before(Slot),
    /// The trip_id beside the place: of the same trip descriptor, or of the trip of the same vehicle's message.
    TripId,
    /// The start_time of the place's trip descriptor.
    StartTime,
    /// The start_date of the place's trip descriptor.
    StartDate,
    /// The schedule_relationship of the place's trip descriptor.
    Relationship,
    /// The delay of the place's event.
    Delay,
    /// The time of the place's event.
    Time,
    /// The message that the place's field is wanted in.
    Holder,
    /// A cell of the last header of the place's feed.
    HeadNow(Slot),
    /// A cell of the header before it.
    HeadBefore(Slot),
    /// When the last snapshot of the place's feed was taken.
    Moment,
    /// How many entities with its id stand before the place's.
    Occurrence,
    /// Whether the last two snapshots of the place's feed have different entities.
    EntitiesChanged,
    TripKnown(usize),
    RouteKnown(usize),
    AgencyKnown(usize),
    StopKind(usize),
    TripRoute(usize),
    TripDirection(usize),
    TripExact(usize),
    OnGrid(usize, usize),
    VisitsTwice(usize),
    FirstArrival(usize),
    StopAt(usize, usize),
    /// The scheduled arrival or departure, as the place is one or the other.
    EventAt(usize, usize),
    /// Of the other kind than the place's message.
    FirstVehicle(usize),
    /// Of the other kind than the place's message.
    HasPair(usize, usize),
    /// Of the other kind than the place's message.
    AnyRow,
    /// A trip or a vehicle of the other kind, as the place is the id of one or the other.
    HasId(usize),
    /// In the place's feed.
    FirstId(usize),
    /// In the place's feed.
    FirstOccurrence(usize),
    /// In the place's feed.
    Peak(usize),
}

/// One condition of a row's test, on the values of its facts, which it names by their numbers from 0.
#[derive(Clone, Copy)]
pub enum Atom {
    Given(usize),
    Missing(usize),
    /// It is the number.
    Is(usize, u32),
    /// It isn't the number: another, or none.
    IsNot(usize, u32),
    /// It is a number of at least so much.
    AtLeast(usize, u32),
    /// One of the two is missing.
    AnyMissing(usize, usize),
    /// It is a number below the first bound or above the second.
    Outside(usize, u32, u32),
    /// Both are numbers, and the first is at least the second.
    NotBelow(usize, usize),
    /// Both are numbers, and the first is below the second.
    Below(usize, usize),
    /// Both are numbers, and the first is above the second by more than the bound.
    Above(usize, usize, u32),
    /// Both are given, and they are one.
    Equal(usize, usize),
    /// Both are given, and they aren't one.
    Differ(usize, usize),
    /// It is a time of a service day.
    IsTime(usize),
    /// It is given, and isn't two or three digits, a colon, two digits up to 59, a colon and two digits up to 59.
    NotClock(usize),
    /// It is given, and isn't a date.
    NotDate(usize),
    /// The first is a time, the second is given, and it isn't that time's number of seconds.
    TimeDiffers(usize, usize),
    /// Of two stops, the latest number of the first, an arrival and a departure, isn't before the earliest of the second.
    NotLater(usize, usize, usize, usize),
    /// It is neither "1.0" nor "2.0".
    NotVersion(usize),
    /// It is "2.0".
    IsVersion2(usize),
    /// It isn't "2.0".
    NotVersion2(usize),
    /// An id and an occurrence that aren't those of the place's entity.
    NotItself(usize, usize),
}
