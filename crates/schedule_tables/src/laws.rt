//! What the tables say, in words of keys and records.

ghost use Rattle.schedule_tables.specs.Formats.{agencies, dates, day_key, departures, only_key, routes, services, stops, trips};
ghost use Rattle.schedule_tables.specs.Laws.{FollowsRows, HoldsEach, ListsEach, never_same, row_keys};
ghost use Rattle.schedule_tables.specs.Stops.{HoldsVisits, visit_key, visits};

/// Of an accepted file no required column is missing, and each row is read without a fault. Where the
/// file has a key, no two rows have one key, and the table has under each row's key that row's record
/// and nothing under other keys; frequencies.txt has none, and the table lists under each id its rows.
///
/// Of a refused file the first required column is missing; or the rows before the named one are without
/// fault and their keys differ, and a cell of the named row is faulty or its key stood before.
pub fn tables_follow_their_rows()
    ensures agency { FollowsRows agencies (row_keys only_key).same (HoldsEach (row_keys only_key)) }
    ensures stops { FollowsRows stops (row_keys only_key).same (HoldsEach (row_keys only_key)) }
    ensures routes { FollowsRows routes (row_keys only_key).same (HoldsEach (row_keys only_key)) }
    ensures trips { FollowsRows trips (row_keys only_key).same (HoldsEach (row_keys only_key)) }
    ensures stop_times { FollowsRows visits visit_key.same HoldsVisits }
    ensures calendar { FollowsRows services (row_keys only_key).same (HoldsEach (row_keys only_key)) }
    ensures calendar_dates { FollowsRows dates (row_keys day_key).same (HoldsEach (row_keys day_key)) }
    ensures frequencies { FollowsRows departures never_same ListsEach }
{}
