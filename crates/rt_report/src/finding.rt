//! The line of a finding.
ghost use Rattle.std.specs.Prelude.{◌≡◌, [], ◌∷◌, IfOk, OnOk, codes, decimal, true};
ghost use Rattle.std.specs.List.{list_all};
ghost use Rattle.json.specs.Token as token;
ghost use Rattle.serde_json.specs.Data.{number};
ghost use Rattle.serde_json.specs.Find.{of_integer};
ghost use Rattle.serde_json.specs.Written.{compact_text};
ghost use Rattle.feed_values.specs.Cells.{path_text};
ghost use Rattle.std.specs.Str.{IsUtf8};
ghost use Rattle.rule_table.specs.Asked.{in_range};
ghost use Rattle.rule_table.specs.Rules.{rule_name, level};
ghost use Rattle.snapshot_lines.specs.Lines.{line_of};
ghost use Rattle.rt_report.specs.Findings.{line_name, cell_data, fact_data, facts_data, finding_data};
ghost use Rattle.rt_report.specs.Tokens.{Adds, tokens_of, fact_tokens};

use crate::asked::{ask_name, push_keys};
use crate::tokens::{push_count, push_text};
use feed_values::{CellValue, Path};
use json::Writer;
use rule_table::{EntityKey, Fact, Finding, Place, RuleId};
use std::alloc::{AllocError, Global};

// How many bytes a line is given at first: what most lines need.
const ROOM: usize = 384;

/// Which line a finding is: one of all findings, or of those that a snapshot opened.
#[derive(Clone, Copy, Debug)]
pub enum LineKind {
    Finding,
    Opened,
}

/// What a line tells of a finding besides its place.
#[derive(Clone, Copy)]
struct Told<'a> {
    kind: LineKind,
    rule: RuleId,
    facts: &'a [Fact],
    since: u64,
}

fn line_name(kind: LineKind) -> &'static str
    ensures { result.now ≡ line_name kind }
{
    match kind {
        LineKind::Finding => "finding",
        LineKind::Opened => "opened",
    }
}

/// A number that may be below 0.
fn push_integer(out: &mut Writer, integer: i64) -> Result<(), AllocError>
    ensures { OnOk result (Adds out.old out.new (tokens_of (number (of_integer integer)))) }
{
    out.i64(integer)
}

fn push_cell(out: &mut Writer, cell: &CellValue) -> Result<(), AllocError>
    requires { in_range cell.now ≡ true }
    ensures { OnOk result (Adds out.old out.new (tokens_of (cell_data cell.now))) }
{
    match cell {
        CellValue::Missing => out.null(),
        CellValue::Number(number) => {
            if *number < 0 {
                push_integer(out, *number as i64)
            } else {
                out.u64(*number as u64)
            }
        }
        CellValue::Text(text) => out.string(text.as_str()),
    }
}

fn push_fact(alloc: Global, out: &mut Writer, fact: &Fact) -> Result<(), AllocError>
    requires { in_range fact.now.value ≡ true }
    ensures { OnOk result (Adds out.old out.new (tokens_of (fact_data fact.now))) }
{
    out.begin_object()?;
    push_text(out, "ask", ask_name(&fact.ask))?;
    out.key("keys")?;
    out.begin_array()?;
    push_keys(alloc, out, &fact.ask)?;
    out.end_array()?;
    out.key("value")?;
    push_cell(out, &fact.value)?;
    out.end_object()
}

fn push_facts(alloc: Global, out: &mut Writer, facts: &[Fact]) -> Result<(), AllocError>
    requires { list_all (λ f. in_range f.value) facts.now ≡ true }
    ensures { OnOk result (Adds out.old out.new (fact_tokens facts.now)) }
{
    for fact in facts {
        push_fact(alloc, out, fact)?;
    }
    Ok(())
}

/// Begins a finding's object by its facts.
fn push_front(alloc: Global, out: &mut Writer, facts: &[Fact]) -> Result<(), AllocError>
    requires { list_all (λ f. in_range f.value) facts.now ≡ true }
    ensures { OnOk result (Adds out.old out.new (token.begin_object ∷ token.key (codes "facts") ∷ tokens_of (facts_data facts.now))) }
{
    out.begin_object()?;
    out.key("facts")?;
    out.begin_array()?;
    push_facts(alloc, out, facts)?;
    out.end_array()
}

fn push_level(out: &mut Writer, told: Told<'_>) -> Result<(), AllocError>
    ensures { OnOk result (Adds out.old out.new (token.key (codes "level") ∷ token.string (level told.entry.rule)
        ∷ token.key (codes "line") ∷ token.string (line_name told.entry.kind) ∷ [])) }
{
    push_text(out, "level", told.rule.level())?;
    push_text(out, "line", line_name(told.kind))
}

/// Appends the members between the facts and the path, of a finding on a header.
fn push_on_header(out: &mut Writer, told: Told<'_>, feed: u8) -> Result<(), AllocError>
    ensures { OnOk result (Adds out.old out.new (token.key (codes "feed") ∷ token.number (decimal feed)
        ∷ token.key (codes "level") ∷ token.string (level told.entry.rule)
        ∷ token.key (codes "line") ∷ token.string (line_name told.entry.kind) ∷ [])) }
{
    push_count(out, "feed", feed as u64)?;
    push_level(out, told)
}

/// The same at an entity.
fn push_at_entity(out: &mut Writer, told: Told<'_>, key: &EntityKey) -> Result<(), AllocError>
    ensures { OnOk result (Adds out.old out.new (token.key (codes "feed") ∷ token.number (decimal key.now.feed)
        ∷ token.key (codes "id") ∷ token.string key.now.id
        ∷ token.key (codes "level") ∷ token.string (level told.entry.rule)
        ∷ token.key (codes "line") ∷ token.string (line_name told.entry.kind)
        ∷ token.key (codes "occurrence") ∷ token.number (decimal key.now.occurrence) ∷ [])) }
{
    push_count(out, "feed", key.feed as u64)?;
    push_text(out, "id", key.id.as_str())?;
    push_level(out, told)?;
    push_count(out, "occurrence", key.occurrence as u64)
}

/// Ends a finding's object by its path, its rule, and since when.
fn push_back(alloc: Global, out: &mut Writer, told: Told<'_>, path: Path) -> Result<(), AllocError>
    ensures { OnOk result (Adds out.old out.new (token.key (codes "path") ∷ token.string (path_text path.slot path.index)
        ∷ token.key (codes "rule") ∷ token.string (rule_name told.entry.rule)
        ∷ token.key (codes "since") ∷ token.number (decimal told.entry.since) ∷ token.end_object ∷ [])) }
{
    let path = path.text(alloc)?;
    push_text(out, "path", path.as_str())?;
    push_text(out, "rule", told.rule.name())?;
    push_count(out, "since", told.since)?;
    out.end_object()
}

fn push_finding(
    alloc: Global,
    out: &mut Writer,
    told: Told<'_>,
    place: &Place,
) -> Result<(), AllocError>
    requires { list_all (λ f. in_range f.value) told.facts.now ≡ true }
    ensures { OnOk result (Adds out.old out.new (tokens_of (finding_data told.entry.kind (record { rule = told.entry.rule; place = place.now; facts = told.entry.facts.now }) told.entry.since))) }
{
    push_front(alloc, out, told.facts)?;
    match place {
        Place::Head(feed, slot) => {
            let path = Path {
                slot: *slot,
                index: 0,
            };
            push_on_header(out, told, *feed)?;
            push_back(alloc, out, told, path)
        }
        Place::Entity(key, path) => {
            push_at_entity(out, told, key)?;
            push_back(alloc, out, told, *path)
        }
    }
}

/// The text of a finding's object, without a line feed. The facts need not break the rule at the place, so what a reader was
/// told can be printed again; only their numbers lie from -2^63 to 2^64 - 1.
pub fn finding_text(
    alloc: Global,
    line: LineKind,
    rule: RuleId,
    place: &Place,
    facts: &[Fact],
    since: u64,
) -> Result<Vec<u8>, AllocError>
    requires { list_all (λ f. in_range f.value) facts.now ≡ true }
    ensures text { IfOk result (λ bytes. bytes.items ≡ compact_text (finding_data line (record { rule = rule; place = place.now; facts = facts.now }) since)) }
    ensures utf8 { IfOk result (λ bytes. IsUtf8 bytes.items) }
{
    let mut out = Writer::new(Vec::with_capacity(alloc, ROOM)?);
    let told = Told {
        kind: line,
        rule,
        facts,
        since,
    };
    push_finding(alloc, &mut out, told, place)?;
    Ok(out.into_inner())
}

/// The line of a finding whose rule has stood at its place since the snapshot `since`, counted from 0.
pub fn finding_line(
    alloc: Global,
    line: LineKind,
    finding: &Finding,
    since: u64,
) -> Result<Vec<u8>, AllocError>
    ensures { IfOk result (λ bytes. bytes.items ≡ line_of (finding_data line finding.now since)) }
{
    let facts = finding.facts().as_slice();
    let mut bytes = finding_text(alloc, line, finding.rule(), finding.place(), facts, since)?;
    bytes.push(b'\n')?;
    Ok(bytes)
}
