//! What the definitions of the contracts stand for. Each law is a contract that an empty body meets.
ghost use Rattle.propagation.specs.Laws.{GoverningIsGreatest, ListIsTheSet, MatchInOneWay, MatchInSomeWay, MatcherIsTheMatch, PositionsRise};

/// Updates match the stops of a trip in exactly one way, and a stop's update is the one that matches it: no two match one stop.
pub fn updates_match_in_one_way()
    ensures some { MatchInSomeWay }
    ensures one { MatchInOneWay }
    ensures matcher { MatcherIsTheMatch }
{}

/// The setter that governs an event is the one with the greatest position at or before it, of the set that the delay of the
/// whole trip and the matched updates make. No two setters have one position.
pub fn the_greatest_setter_governs()
    ensures governs { GoverningIsGreatest }
    ensures set { ListIsTheSet }
    ensures positions { PositionsRise }
{}
