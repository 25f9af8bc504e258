//! What agreeing is, and what it is for. A function stands for its contract: it does nothing, and its `ensures` is proved for
//! everything that it speaks of.
ghost use Rattle.rule_history.specs.Answered.{tables_of};
ghost use Rattle.timetable_agree.specs.Agree.{AgreeReadsAsSets};
ghost use Rattle.timetable_agree.specs.Laws.{AgreeingFindAlike, FindAlike};

use timetable::Timetable;

/// Two timetables that are there agree for an entity exactly where each id that it gives says the same in both.
pub fn agreeing_reads_as_sets()
    ensures { AgreeReadsAsSets }
{}

/// Where two timetables agree for an entity, any rules find the same by the entity and the one as by the entity and the other.
/// This is said of what any timetables may hold.
pub fn agreeing_tables_find_alike()
    ensures { AgreeingFindAlike }
{}

/// The same of two timetables.
pub fn agreeing_timetables_find_alike(old: &Timetable, new: &Timetable)
    ensures { FindAlike (tables_of old.now) (tables_of new.now) }
{
    old.stops_differ();
    new.stops_differ();
}
