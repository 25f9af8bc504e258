//! Laws of the parts of an entity's findings. A function stands for its contract: it does nothing, and its `ensures` is proved for every
//! timetable, every history, and every group of rules.
ghost use Rattle.part_laws.specs.Bounded.{BoundedStays, BoundsAreLow, NoneIsBounded};
ghost use Rattle.part_laws.specs.FourParts.{MergedCloses, MergedIsByRule, MergedOpens, MergedRenews};
ghost use Rattle.part_laws.specs.Stays.{LocalStays, PairedStays, PeakedStays};
ghost use Rattle.part_laws.specs.Touched.{TouchedClose, TouchedOpen};

use rule_clear::LocalRule;
use rule_table::{BoundRule, PairRule, PeakRule};

/// An entity that was there with the same bytes keeps what a group finds at it by itself and with the timetable.
pub fn local_part_stays<R: LocalRule>(_rule: &R)
    ensures { LocalStays (R.findings _rule.now) }
{}

/// If moreover no row that came or went shares an id with one of its rows, and no kind of rows came or went whole that its rows are looked up in, it
/// keeps what a group finds with pairing rows.
pub fn paired_part_stays<R: PairRule>(_rule: &R)
    ensures { PairedStays (R.findings _rule.now) }
{}

/// If moreover its header's timestamp and the moment are those of the snapshot before, or no rule of the table on bounds stood or stands at it, it keeps
/// what a group finds by bounds.
pub fn bounded_part_stays<R: BoundRule>(_rule: &R)
    ensures { BoundedStays (R.findings _rule.now) }
{}

/// If moreover its vehicle, where it gives one, has the peak that it had, it keeps what a group finds with peaks.
pub fn peaked_part_stays<R: PeakRule>(_rule: &R)
    ensures { PeakedStays (R.findings _rule.now) }
{}

/// A group finds nothing by bounds where no timestamp is above the lower of them.
pub fn none_is_bounded<R: BoundRule>(_rule: &R)
    ensures { NoneIsBounded (R.findings _rule.now) }
{}

/// The rules of the table on bounds find something exactly where one is.
pub fn bounds_are_low()
    ensures { BoundsAreLow }
{}

/// Four lists in the order of rules, no two of which have a rule in common, merged are all of them in that order.
pub fn merged_is_by_rule()
    ensures { MergedIsByRule }
{}

/// Four parts renewed each by itself, merged, are the whole renewed.
pub fn merged_renews()
    ensures { MergedRenews }
{}

/// What opened is found part by part.
pub fn merged_opens()
    ensures { MergedOpens }
{}

/// What closed is found part by part.
pub fn merged_closes()
    ensures { MergedCloses }
{}

/// What opened at the entities of a feed is found at the touched keys alone.
pub fn touched_open()
    ensures { TouchedOpen }
{}

/// What closed is found at the touched keys alone, those of entities that are gone among them.
pub fn touched_close()
    ensures { TouchedClose }
{}
