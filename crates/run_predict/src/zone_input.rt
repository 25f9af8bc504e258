//! The zone that a command line names.
ghost use Rattle.std.specs.Prelude.{◌≡◌, ◌≢◌, ◌≤◌, None, IfSome, IfOk, IfErr, IsErrOf, string_bytes};
ghost use Rattle.std.specs.FinMap.{get};
ghost use Rattle.jiff.specs.Words.{read_whole};
ghost use Rattle.rt_outside.specs.Causes.{Rose};
ghost use Rattle.rt_outside.specs.Store.{contents_told};
ghost use Rattle.trip_calendar.specs.Zones.{IsFileZone, IsRefusedTable, IsRuleZone};
ghost use Rattle.run_predict.specs.Zones.{TellsZoneFault, IsFaultIn, IsZoneFault, IsZoneFile, IsZoneIn, IsZoneOf, file_named, input_fault, zone_text};
ghost use Rattle.run_predict.specs.declared.zone_input_fault.ZoneInputFault.TheVariants as fault;

use crate::zone_input_fault::ZoneInputFault;
use rt_outside::{Files, ReadEnd, read_whole};
use run_base::{InputFault, refused_text};
use run_words::ZoneWord;
use std::alloc::{AllocError, Global};
use trip_calendar::{Zone, ZoneFault};

/// The most bytes that a zone file may have.
const ZONE_LIMIT: usize = 1_048_576;

/// The zone that is named, or why it is refused. A rule is read without a file.
///
/// A read fault comes only where a call fails. A fault of a file comes only where a file is named.
pub fn zone_input<F: Files>(
    alloc: Global,
    files: &mut F,
    word: &ZoneWord,
) -> Result<Zone, ZoneInputFault>
    ensures ok { IfOk result (λ zone. IfSome (contents_told (F.state files.old).told) (λ held. IsZoneOf word.now held zone)) }
    ensures err { IfErr result (λ e. e ≢ fault.ReadFault → e ≢ fault.Memory
        → IfSome (contents_told (F.state files.old).told) (λ held. IsZoneFault word.now held e)) }
    ensures contents { contents_told (F.state files.new).told ≡ contents_told (F.state files.old).told }
    ensures later { (F.state files.old).faults ≤ (F.state files.new).faults }
    ensures named { IfErr result (λ e. e ≢ fault.BadZone → e ≢ fault.Memory → IsZoneFile word.now (file_named word.now)) }
    ensures asked { IsErrOf result fault.ReadFault → IfSome (F.state files.new).asked (λ last. last ≡ file_named word.now) }
    ensures read { IsErrOf result fault.ReadFault → Rose (F.state files.old).faults (F.state files.new).faults }
{
    match word {
        ZoneWord::Rule(text) => rule_zone(alloc, text.as_str()),
        ZoneWord::File(name) => file_zone(alloc, files, name.as_str()),
    }
}

fn input_fault(fault: ZoneFault) -> ZoneInputFault
    ensures { result ≡ input_fault fault }
{
    match fault {
        ZoneFault::BadZone => ZoneInputFault::BadZone,
        ZoneFault::Memory => ZoneInputFault::Memory,
    }
}

// The zone of a rule.
fn rule_zone(alloc: Global, text: &str) -> Result<Zone, ZoneInputFault>
    ensures ok { IfOk result (IsRuleZone text.now) }
    ensures err { IfErr result (λ e. (read_whole text.now ≡ None) × (e ≡ fault.BadZone)) }
{
    match Zone::from_rule(alloc, text) {
        Ok(zone) => Ok(zone),
        Err(fault) => Err(input_fault(fault)),
    }
}

// The zone of the file of this name.
fn file_zone<F: Files>(alloc: Global, files: &mut F, name: &str) -> Result<Zone, ZoneInputFault>
    ensures ok { IfOk result (λ zone. IfSome (contents_told (F.state files.old).told) (λ held. IsZoneIn (get held name.now) zone)) }
    ensures err { IfErr result (λ e. e ≢ fault.ReadFault → e ≢ fault.Memory
        → IfSome (contents_told (F.state files.old).told) (λ held. IsFaultIn (get held name.now) e)) }
    ensures contents { contents_told (F.state files.new).told ≡ contents_told (F.state files.old).told }
    ensures later { (F.state files.old).faults ≤ (F.state files.new).faults }
    ensures asked { IfSome (F.state files.new).asked (λ last. last ≡ name.now) }
    ensures read { IsErrOf result fault.ReadFault → Rose (F.state files.old).faults (F.state files.new).faults }
{
    match read_whole(alloc, files, name, ZONE_LIMIT) {
        Ok(bytes) => table_zone(alloc, &bytes),
        Err(ReadEnd::Absent) => Err(ZoneInputFault::MissingFile),
        Err(ReadEnd::TooLarge) => Err(ZoneInputFault::TooLarge),
        Err(ReadEnd::ReadFault) => Err(ZoneInputFault::ReadFault),
        Err(ReadEnd::Memory) => Err(ZoneInputFault::Memory),
    }
}

// The zone of the bytes of a zone file.
fn table_zone(alloc: Global, bytes: &[u8]) -> Result<Zone, ZoneInputFault>
    ensures ok { IfOk result (IsFileZone bytes.now) }
    ensures err { IfErr result (λ e. e ≢ fault.Memory → IsRefusedTable bytes.now × (e ≡ fault.BadZone)) }
{
    match Zone::from_file_bytes(alloc, bytes) {
        Ok(zone) => Ok(zone),
        Err(fault) => Err(input_fault(fault)),
    }
}

/// Why the zone that is named isn't had, as it is told.
pub fn told_as(alloc: Global, word: &ZoneWord, fault: ZoneInputFault) -> InputFault<'_>
    ensures { TellsZoneFault word.now fault result }
{
    match fault {
        ZoneInputFault::ReadFault => InputFault::Read(file_named(word)),
        ZoneInputFault::Memory => InputFault::Memory,
        _ => match zone_text(alloc, word, fault) {
            Ok(text) => InputFault::Refused(text),
            Err(_) => InputFault::Memory,
        },
    }
}

// The name of the zone file, or an empty text where a rule is given.
fn file_named(word: &ZoneWord) -> &str
    ensures { result.now ≡ file_named word.now }
{
    match word {
        ZoneWord::Rule(_) => "",
        ZoneWord::File(name) => name.as_str(),
    }
}

// The text of a refused zone, which is empty where the fault is none of its text or bytes.
fn zone_text(alloc: Global, word: &ZoneWord, fault: ZoneInputFault) -> Result<String, AllocError>
    ensures { IfOk result (λ text. string_bytes text ≡ zone_text word.now fault) }
{
    match fault {
        ZoneInputFault::MissingFile => refused_text(alloc, file_named(word), "missing file"),
        ZoneInputFault::TooLarge => refused_text(alloc, file_named(word), "too large"),
        ZoneInputFault::BadZone => refused_text(alloc, "zone", "bad zone"),
        ZoneInputFault::ReadFault | ZoneInputFault::Memory => Ok(String::new(alloc)),
    }
}
