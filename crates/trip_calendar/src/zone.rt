//! Zones: what the clocks of a place show.
ghost use Rattle.std.specs.Prelude.{◌≡◌, ℤ, ◌≢◌, ◌↔◌, IsOk, IsSome, IfOk, IfErr};

use crate::zone_fault::ZoneFault;
use jiff::Error;
use jiff::tz::{TimeZone, Tzif};
use std::alloc::Global;

#[derive(Drop)]
enum Held {
    Rule(TimeZone<'static>),
    Table(Tzif),
}

/// A zone: at each instant the offset of a place's clocks from UTC, in seconds, and for each date and time that the clocks
/// show the offset that is meant.
#[derive(Drop)]
pub struct Zone {
    held: Held,
}

impl Zone {
    ghost use Rattle.jiff.specs.Words.{ambiguous_at, offset_at, plain_zone, read_whole};
    ghost use Rattle.jiff_core.specs.declared.civil.datetime.DateTime.{DateTime};
    ghost use Rattle.trip_calendar.specs.Zones.{IsFileZone, IsRefusedTable, IsRuleZone, zone_of};
    ghost use Rattle.trip_calendar.specs.declared.zone_fault.ZoneFault.TheVariants.{BadZone, Memory};

    /// The zone of a POSIX rule, as `EST5EDT,M3.2.0,M11.1.0`. (POSIX, "Environment Variables", TZ; names have 3 to 15
    /// letters.) It takes no memory.
    pub fn from_rule(_alloc: Global, text: &str) -> Result<Zone, ZoneFault>
        ensures read { IfOk result (IsRuleZone text.now) }
        ensures succeeds { IsOk result ↔ IsSome (read_whole text.now) }
        ensures refused { IfErr result (λ fault. fault ≡ BadZone) }
    {
        match TimeZone::posix(text) {
            Ok(rule) => Ok(Zone {
                held: Held::Rule(rule),
            }),
            Err(_) => Err(ZoneFault::BadZone),
        }
    }

    /// The zone of a compiled zone file. (RFC 8536, "The Time Zone Information Format (TZif)".) A file whose footer disagrees
    /// with its last transition is a bad zone.
    pub fn from_file_bytes(alloc: Global, bytes: &[u8]) -> Result<Zone, ZoneFault>
        ensures read { IfOk result (IsFileZone bytes.now) }
        ensures refused { IfErr result (λ fault. fault ≢ Memory → IsRefusedTable bytes.now) }
    {
        match Tzif::parse(alloc, None, bytes) {
            Ok(table) => Ok(Zone {
                held: Held::Table(table),
            }),
            Err(Error::OutOfMemory) => Err(ZoneFault::Memory),
            Err(_) => Err(ZoneFault::BadZone),
        }
    }

    // The zone as jiff takes it.
    pub(crate) fn time_zone(&self) -> TimeZone<'_>
        ensures offsets { (n : ℤ) → offset_at (plain_zone result) n ≡ offset_at (zone_of self.now) n }
        ensures choices { (dt : DateTime) → ambiguous_at (plain_zone result) dt ≡ ambiguous_at (zone_of self.now) dt }
    {
        match &self.held {
            Held::Rule(rule) => *rule,
            Held::Table(table) => TimeZone::tzif(table),
        }
    }
}
