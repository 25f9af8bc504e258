//! The engine.
ghost use Rattle.std.specs.Prelude.{◌≡◌, ◌+◌, ◌-◌, ◌*◌, ◌^◌, ◌<◌, ◌≤◌, List, [], Option, length, option_copied, option_map, IfOk, OnOk};
ghost use Rattle.timetable.specs.Timetables.{Tables};
ghost use Rattle.rule_table.specs.Rises.{Rising};
ghost use Rattle.rule_history.specs.Answered.{tables_of};
ghost use Rattle.rule_history.specs.Changed.{tested, with};
ghost use Rattle.rule_history.specs.History.{Snapshot, now};
ghost use Rattle.engine_laws.specs.Delta.{IsDelta};
ghost use Rattle.rule_history.specs.Findings.{findings};
ghost use Rattle.engine_laws.specs.Standings.{Matches, StandsFor, renewed};
ghost use Rattle.exchanged_timetables.specs.cached_laws.Cached.{AreCached};
ghost use Rattle.exchanged_timetables.specs.cached_laws.State.{feed_of};
ghost use Rattle.exchanged_timetables.specs.entity_index.Held.{held_at};
ghost use Rattle.exchanged_timetables.specs.held_feeds.Entities.{entities_after, entities_held};
ghost use Rattle.follow_engine.specs.Deltas.{all_closed, all_opened, delta_value};
ghost use Rattle.follow_engine.specs.Followed.{tests_of};
ghost use Rattle.follow_engine.specs.Retabled.{AreKeysOf, FindAlikeBeside, OpensAndCloses};

use crate::delta::Delta;
use crate::following::{Followed, follow};
use crate::retabling::{Turned, turn};
use exchanged_timetables::{
    EntitiesIter, EntityIndex, Feeds, FindingsIter, HeaderRules, HeldFeeds, HeldRows, Judging,
    PartRules, Retabled, Rules, Taken,
};
use feed_stream::Kept;
use history_rules::Peaks;
use rt_outside::Steps;
use rule_table::EntityKey;
use std::alloc::{AllocError, Global};
use std::sync::ledger::Ledger;
use timetable::Timetable;

// The last snapshot of a feed.
fn kept_in(feeds: &Feeds, feed: u8) -> Option<&Kept>
    ensures { option_copied result ≡ (held_at feeds.now.index feed).bytes }
{
    feeds.held.index.kept_of(feed)
}

/// What follows up to 16 feeds: a timetable, how many snapshots were taken, the last one of each feed with its entities decoded, the
/// greatest timestamp of each vehicle before it, and the findings of each entity and header, each with the number of the snapshot since which its rule
/// stands at its place. `engine_data` is what contracts see of it.
#[derive(Drop)]
pub struct Engine {
    alloc: Global,
    table: Timetable,
    rules: Rules,
    applied: u64,
    feeds: Feeds,
    // Each list that is held has what its part finds.
    ghost cached: { AreCached (tables_of table) feeds.index (feed_of feeds) },
}

impl Engine {
    ghost use Rattle.follow_engine.specs.Engines.{engine_data};

    /// An engine with a timetable, which stands for the history without snapshots. It takes no memory.
    pub fn new(alloc: Global, table: Timetable) -> Engine
        ensures { StandsFor (engine_data result) (tables_of table) [] }
    {
        let feeds = Feeds {
            held: HeldFeeds {
                index: EntityIndex::new(alloc),
                headers: Vec::new(alloc),
                peaks: Peaks::new(alloc),
            },
            rows: HeldRows::new(alloc),
        };
        feeds.stands();
        Engine {
            alloc,
            table,
            rules: Rules {
                headers: HeaderRules::new(),
                parts: PartRules::new(),
            },
            applied: 0,
            feeds,
        }
    }

    /// Puts a snapshot of a feed at the end of the history, and answers the engine that matches the longer history with what the snapshot changed. Each
    /// rule at a place keeps its number, and one that is new has the number of the snapshot; so what stood for the history stands for the longer one.
    ///
    /// Feeds count from 0. The moment is the time at which the snapshot was taken, in seconds from 1970. It decodes the entities that are new or have
    /// other bytes, and judges again what the snapshot changed: `decodes` ticks once for each decoding, `tests` for each rule that is judged. The one
    /// error is want of memory; the engine is gone then.
    pub fn apply<D: Ledger, T: Ledger>(
        self,
        feed: u8,
        moment: u64,
        kept: Kept,
        decodes: &mut Steps<D>,
        tests: &mut Steps<T>,
    ) -> Result<(Engine, Delta), AllocError>
        requires feed { feed < 16 }
        requires applied { (engine_data self).applied < 1000000 }
        ensures matches { IfOk result (λ r. (t : Option Tables) (h : List Snapshot) → Matches (engine_data self) t h
            → Matches (engine_data r.0) t (with h (record { feed = feed; moment = moment; bytes = kept }))) }
        ensures numbers { IfOk result (λ r. (t : Option Tables) (h : List Snapshot) → Matches (engine_data self) t h
            → (engine_data r.0).list ≡ renewed (engine_data self).list (length h) (findings t (with h (record { feed = feed; moment = moment; bytes = kept })))) }
        ensures stands { IfOk result (λ r. (t : Option Tables) (h : List Snapshot) → StandsFor (engine_data self) t h
            → StandsFor (engine_data r.0) t (with h (record { feed = feed; moment = moment; bytes = kept }))) }
        ensures changes { IfOk result (λ r. (t : Option Tables) (h : List Snapshot) → Matches (engine_data self) t h
            → IsDelta t h (record { feed = feed; moment = moment; bytes = kept }) (engine_data r.0).list (delta_value r.1)) }
        ensures decoded { OnOk result ((t : Option Tables) (h : List Snapshot) → Matches (engine_data self) t h → decodes.new ≡ decodes.old + tested h (record { feed = feed; moment = moment; bytes = kept })) }
        ensures most_decoded { (t : Option Tables) (h : List Snapshot) → Matches (engine_data self) t h → decodes.new ≤ decodes.old + tested h (record { feed = feed; moment = moment; bytes = kept }) }
        ensures judged { OnOk result ((t : Option Tables) (h : List Snapshot) → Matches (engine_data self) t h → tests.new ≡ tests.old + tests_of t h (record { feed = feed; moment = moment; bytes = kept })) }
        ensures most_judged { (t : Option Tables) (h : List Snapshot) → Matches (engine_data self) t h → tests.new ≤ tests.old + tests_of t h (record { feed = feed; moment = moment; bytes = kept }) }
    {
        let Engine {
            alloc,
            table,
            rules,
            applied,
            feeds,
        } = self;
        feeds.stands();
        let _bytes = kept.bytes();
        let taken = Taken { feed, moment, kept };
        let judging = Judging {
            alloc,
            rules: &rules,
            table: &table,
            applied,
        };
        let Followed { feeds, delta } = follow(&judging, feeds, taken, decodes, tests)?;
        let engine = Engine {
            alloc,
            table,
            rules,
            applied: applied + 1,
            feeds,
        };
        Ok((engine, delta))
    }

    /// Puts another timetable in the place of the one that it has, and answers the engine that matches the same history with it, with what that opened and
    /// closed. A rule at a place keeps its number, and one that is new there has the number of the last snapshot.
    ///
    /// Only the touched entities are judged again, so these must be all by which the two timetables find other things. `tests` ticks 40 times for each of
    /// them. The one error is want of memory; the engine is gone then.
    pub fn retable<T: Ledger>(
        self,
        table: Timetable,
        touched: &[EntityKey],
        tests: &mut Steps<T>,
    ) -> Result<(Engine, Retabled), AllocError>
        requires named { AreKeysOf (entities_held self.feeds) touched.now }
        requires others { FindAlikeBeside touched.now (tables_of self.table) (tables_of table) (entities_held self.feeds) }
        ensures matches { IfOk result (λ r. (t : Option Tables) (h : List Snapshot) → Matches (engine_data self) t h → Matches (engine_data r.0) (tables_of table) h) }
        ensures numbers { IfOk result (λ r. (t : Option Tables) (h : List Snapshot) → Matches (engine_data self) t h
            → (engine_data r.0).list ≡ renewed (engine_data self).list (length h - 1) (findings (tables_of table) h)) }
        ensures changes { IfOk result (λ r. (t : Option Tables) (h : List Snapshot) → Matches (engine_data self) t h
            → OpensAndCloses t (tables_of table) h (engine_data r.0).list (all_opened r.1.opened) (all_closed r.1.closed)) }
        ensures tested { OnOk result (tests.new ≡ tests.old + 40 * length touched.now) }
        ensures most { tests.new ≤ tests.old + 40 * length touched.now }
    {
        let Engine {
            alloc,
            rules,
            applied,
            feeds,
            ..
        } = self;
        feeds.stands();
        let judging = Judging {
            alloc,
            rules: &rules,
            table: &table,
            applied,
        };
        let Turned { feeds, retabled } = turn(&judging, feeds, touched, tests)?;
        let engine = Engine {
            alloc,
            table,
            rules,
            applied,
            feeds,
        };
        Ok((engine, retabled))
    }

    /// The timetable that it has.
    pub fn table(&self) -> &Timetable
        ensures held { result.now ≡ self.now.table }
        ensures tables { tables_of result.now ≡ (engine_data self.now).table }
    {
        &self.table
    }

    /// How many snapshots were taken.
    pub fn applied(&self) -> u64
        ensures { result ≡ (engine_data self.now).applied }
    {
        self.applied
    }

    /// The last snapshot of a feed.
    pub fn kept_of(&self, feed: u8) -> Option<&Kept>
        ensures { (t : Option Tables) (h : List Snapshot) → Matches (engine_data self.now) t h → option_copied result ≡ option_map (λ s. s.bytes) (now h feed) }
    {
        self.feeds.stands();
        kept_in(&self.feeds, feed)
    }

    /// The findings in their order, each with the number of the snapshot since which its rule stands at its place. It takes no
    /// memory.
    pub fn findings(&self) -> FindingsIter<'_>
        ensures { result ≡ (engine_data self.now).list }
    {
        FindingsIter::new(&self.feeds)
    }

    /// The entities of the last snapshots of all feeds, each under its key, in the order of their keys. It takes no memory.
    pub fn entities(&self) -> EntitiesIter<'_>
        ensures held { result ≡ entities_held self.now.feeds }
        ensures after { (t : Option Tables) (h : List Snapshot) → Matches (engine_data self.now) t h → result ≡ entities_after h }
        ensures ordered { Rising (entities_held self.now.feeds) }
        ensures few { length (entities_held self.now.feeds) < 2 ^ 64 }
    {
        self.feeds.stands();
        EntitiesIter::new(&self.feeds)
    }
}
