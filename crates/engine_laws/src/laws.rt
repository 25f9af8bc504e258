//! Laws of the definitions. A function stands for its contract: it does nothing, and its `ensures` is proved for every
//! timetable and every history.
ghost use Rattle.engine_laws.specs.Computed.{DeltaIsComputed, FirstIsNew, ListIsComputed};
ghost use Rattle.engine_laws.specs.Walk.{WalkCloses, WalkOpens, WalkRenews};
ghost use Rattle.engine_laws.specs.Laws.{PairingStays, PairingKeeps, PeaksRaise, PeakingStays, NextIsComputed, CountsAreHeld, DataAreJoined, FindingsRise, FindingsAreParts, HeadersStay, NoneIsLost, SinceGoesOn, SinceStarts, ListGoesOn, PartsRenew, PartsOpen, PartsClose, RowsRise, RowsStay, RowsAgree, NothingStands, NextIsOwn, NextMatches, NextNumbers, NextStands, NextChanges};

/// The findings after a history are in order: by feed, header before entities, id, occurrence, rule, slot, index. So no rule
/// stands twice at a place.
#[tactic(auto, using(crate::proofs::Proved::findings_rise))]
pub fn findings_rise()
    ensures { FindingsRise }
{}

/// They are those of each feed, one feed after the other: on its header, then at its entities by their keys, each judged
/// with what is at hand of the last snapshots.
#[tactic(auto, using(crate::proofs::Proved::findings_are_parts))]
pub fn findings_are_parts()
    ensures { FindingsAreParts }
{}

/// What is found on a feed's header stays as it is when another feed's snapshot comes.
#[tactic(auto, using(crate::proofs::Proved::headers_stay))]
pub fn headers_stay()
    ensures { HeadersStay }
{}

/// A feed has as many entities as its last snapshot has byte strings of entities, and each of these stands under the feed,
/// its id, and how many before it have that id.
pub fn none_is_lost()
    ensures { NoneIsLost }
{}

/// A rule that stood at a place and stands there after one more snapshot does so since the same number, whatever its facts.
pub fn since_goes_on()
    ensures { SinceGoesOn }
{}

/// One that didn't stand there does so since this snapshot's number.
#[tactic(auto, using(crate::proofs::Proved::since_starts))]
pub fn since_starts()
    ensures { SinceStarts }
{}

/// So the list of a longer history is its findings, each with its number in the list before, and else with that of the
/// snapshot.
pub fn list_goes_on()
    ensures { ListGoesOn }
{}

/// A list that is renewed header by header and entity by entity is the one list renewed.
pub fn parts_renew()
    ensures { PartsRenew }
{}

/// What opened is found in the lists of the header or entity alone.
#[tactic(auto, using(crate::proofs::Proved::parts_open))]
pub fn parts_open()
    ensures { PartsOpen }
{}

/// What closed is found in the lists of the header or entity alone.
#[tactic(auto, using(crate::proofs::Proved::parts_close))]
pub fn parts_close()
    ensures { PartsClose }
{}

/// A list is renewed by one walk over it and the findings, both in order.
#[tactic(auto, using(crate::proofs::Walk::walk_renews))]
pub fn walk_renews()
    ensures { WalkRenews }
{}

/// What opened is found by one walk over the findings before and the list of now.
#[tactic(auto, using(crate::proofs::Walk::walk_opens))]
pub fn walk_opens()
    ensures { WalkOpens }
{}

/// What closed is found by one walk over the findings before and those of now.
#[tactic(auto, using(crate::proofs::Walk::walk_closes))]
pub fn walk_closes()
    ensures { WalkCloses }
{}

/// Pairing rows are in the order of their keys.
#[tactic(auto, using(crate::proofs::Proved::rows_rise))]
pub fn rows_rise()
    ensures { RowsRise }
{}

/// Where no row came or went that a test is true of, the rows that it is true of are the same list.
pub fn rows_stay()
    ensures { RowsStay }
{}

/// So all that is asked of the ids of a row is answered as before where no row that shares an id with it came or went.
pub fn rows_agree()
    ensures { RowsAgree }
{}

/// An entity that was there with the same bytes, and that no row which came or went concerns, keeps its pairing findings.
pub fn pairing_stays()
    ensures { PairingStays }
{}

/// So it does by what is held of each feed before and after, with no history at hand.
pub fn pairing_keeps()
    ensures { PairingKeeps }
{}

/// One more snapshot raises the peaks of its feed by the snapshot before it.
pub fn peaks_raise()
    ensures { PeaksRaise }
{}

/// An entity whose vehicle's peak is the same keeps what is found with peaks.
pub fn peaking_stays()
    ensures { PeakingStays }
{}

/// What holds nothing stands for the history without snapshots.
#[tactic(auto, using(crate::proofs::Proved::nothing_stands))]
pub fn nothing_stands()
    ensures { NothingStands }
{}

/// Where a list holds the feeds, each at the place of its number, its last snapshots and its lists one after the other are what
/// is held of all feeds.
pub fn data_are_joined()
    ensures { DataAreJoined }
{}

/// What is owed for a snapshot keeps each finding with its own header or entity.
pub fn next_is_own()
    ensures { NextIsOwn }
{}

/// What matches a history, and gives what is owed for one more snapshot, matches the longer history.
pub fn next_matches()
    ensures { NextMatches }
{}

/// Each rule at a place keeps its number, and a new one has that of the snapshot.
pub fn next_numbers()
    ensures { NextNumbers }
{}

/// What stands for a history then stands for the longer one.
pub fn next_stands()
    ensures { NextStands }
{}

/// And its delta is what the snapshot opened and closed, and how many entities it concerned.
pub fn next_changes()
    ensures { NextChanges }
{}

/// What is owed for a snapshot is one thing, which is computed of what is held before it.
#[tactic(auto, using(crate::proofs::Proved::next_is_computed))]
pub fn next_is_computed()
    ensures { NextIsComputed }
{}

/// So are the four counts of the entities that it concerns, also where no engine for the longer history is there.
pub fn counts_are_held()
    ensures { CountsAreHeld }
{}

/// The computed list of a history is the one list that has its findings, each with the number since when its rule stands.
#[tactic(auto, using(crate::proofs::Computed::list_is_computed))]
pub fn list_is_computed()
    ensures { ListIsComputed }
{}

/// And the computed delta is the one thing that a snapshot changes.
pub fn delta_is_computed()
    ensures { DeltaIsComputed }
{}

/// All entities of the first snapshot of a history are tested, paired, bounded and peaked.
#[tactic(auto, using(crate::proofs::Computed::first_is_new))]
pub fn first_is_new()
    ensures { FirstIsNew }
{}
