//! The lines of a report.
ghost use Rattle.std.specs.Prelude.{◌≡◌, ◌++◌, ◌∷◌, [], ◌==◌, IfOk, OnOk, List, ℕ};
ghost use Rattle.std.specs.List.{list_any};
ghost use Rattle.rule_table.specs.Rules.{rule_number};
ghost use Rattle.report_lines.specs.Lines.{line_said};
ghost use Rattle.report_counts.specs.Counts.{behind_snapshot, counts_of, is_ignored};
ghost use Rattle.report_counts.specs.Stepping.{HasTaken, HasTold, with_exchange, with_foreign, with_refused_timetable, with_refused};

use crate::shown::push_shown;
use crate::tallies::Tallies;
use feed_values::Items;
use report_lines::{RefusedLine, RefusedTimetable, ReportLine, read_line};
use rule_table::RuleId;
use rule_tally::{Behind, Telling, one_more};
use std::alloc::{AllocError, Global};

/// What the lines of a report come to.
#[derive(Drop)]
pub struct Counts {
    pub lines: u64,
    /// Snapshots.
    pub accepted: u64,
    /// What the next line stands behind.
    pub behind: Behind,
    pub refused: u64,
    /// The first of the refused.
    pub refusals: Items<RefusedLine>,
    /// Timetables that took the place of another.
    pub exchanged: u64,
    pub refused_timetables: u64,
    /// The first of these.
    pub timetable_refusals: Items<RefusedTimetable>,
    /// Lines that sum up a trial.
    pub trials: u64,
    /// Lines that are no report's.
    pub foreign: u64,
    /// The numbers of the first of them; lines count from 1.
    pub strangers: Items<u64>,
    /// Lines that tell of ignored rules.
    pub ignored: u64,
    /// Those of the other rules.
    pub rules: Tallies,
}

impl Counts {
    /// Those of no lines.
    pub fn new(alloc: Global) -> Result<Counts, AllocError>
        ensures { (ignored : List RuleId) → IfOk result (λ counts. counts ≡ counts_of ignored []) }
    {
        Ok(Counts {
            lines: 0,
            accepted: 0,
            behind: behind_snapshot(None),
            refused: 0,
            refusals: Items::new(alloc),
            exchanged: 0,
            refused_timetables: 0,
            timetable_refusals: Items::new(alloc),
            trials: 0,
            foreign: 0,
            strangers: Items::new(alloc),
            ignored: 0,
            rules: Tallies::new(alloc)?,
        })
    }

    /// Takes one line more, which is given without its line feed; the lines of these rules are ignored. After want of memory they are
    /// no counts of these lines.
    pub fn take(&mut self, alloc: Global, ignored: &[RuleId], line: &[u8]) -> Result<(), AllocError>
        ensures { OnOk result ((before : List (List ℕ)) → self.old ≡ counts_of ignored.now before → self.new ≡ counts_of ignored.now (before ++ line.now ∷ [])) }
    {
        let said = read_line(alloc, line)?;
        self.lines = one_more(self.lines)?;
        self.add(alloc, ignored, said, line)
    }

    fn add(
        &mut self,
        alloc: Global,
        ignored: &[RuleId],
        said: ReportLine,
        line: &[u8],
    ) -> Result<(), AllocError>
        ensures { OnOk result (HasTaken ignored.now self.old said line.now self.new) }
    {
        match said {
            ReportLine::Accepted(moment) => {
                self.accepted = one_more(self.accepted)?;
                self.behind = behind_snapshot(moment);
                Ok(())
            }
            ReportLine::Refused(refusal) => self.refuse(refusal),
            ReportLine::Exchanged(row) => self.exchange(row),
            ReportLine::RefusedTimetable(refusal) => self.refuse_timetable(refusal),
            ReportLine::Told(rule, telling) => self.tell(alloc, ignored, rule, &telling, line),
            ReportLine::Trial => {
                self.trials = one_more(self.trials)?;
                Ok(())
            }
            ReportLine::Foreign => self.pass_by(),
        }
    }

    fn refuse(&mut self, refusal: RefusedLine) -> Result<(), AllocError>
        ensures { OnOk result (self.new ≡ with_refused self.old refusal) }
    {
        self.refused = one_more(self.refused)?;
        push_shown(&mut self.refusals, refusal)
    }

    fn exchange(&mut self, row: u64) -> Result<(), AllocError>
        ensures { OnOk result (self.new ≡ with_exchange self.old row) }
    {
        self.exchanged = one_more(self.exchanged)?;
        self.behind.timetable = Some(row);
        Ok(())
    }

    fn refuse_timetable(&mut self, refusal: RefusedTimetable) -> Result<(), AllocError>
        ensures { OnOk result (self.new ≡ with_refused_timetable self.old refusal) }
    {
        self.refused_timetables = one_more(self.refused_timetables)?;
        push_shown(&mut self.timetable_refusals, refusal)
    }

    fn pass_by(&mut self) -> Result<(), AllocError>
        ensures { OnOk result (self.new ≡ with_foreign self.old) }
    {
        self.foreign = one_more(self.foreign)?;
        push_shown(&mut self.strangers, self.lines)
    }

    fn tell(
        &mut self,
        alloc: Global,
        ignored: &[RuleId],
        rule: RuleId,
        telling: &Telling,
        line: &[u8],
    ) -> Result<(), AllocError>
        ensures { OnOk result (HasTold ignored.now self.old rule telling.now line.now self.new) }
    {
        if is_ignored(ignored, rule) {
            self.ignored = one_more(self.ignored)?;
            return Ok(());
        }
        self.rules.take(alloc, rule, telling, self.behind, line)
    }
}

// What stands behind an accepted snapshot that is judged at this moment.
fn behind_snapshot(moment: Option<u64>) -> Behind
    ensures { result ≡ behind_snapshot moment }
{
    Behind {
        moment,
        timetable: None,
    }
}

// Whether a rule is one of these.
fn is_ignored(ignored: &[RuleId], rule: RuleId) -> bool
    ensures { result ≡ is_ignored ignored.now rule }
{
    ignored.iter().any(|other| other.number() == rule.number())
}
