//! Verdicts without their findings.
ghost use Rattle.std.specs.Prelude.{◌≡◌, IfOk};
ghost use Rattle.report_verify.specs.Verdicts.{verdict_of};
ghost use Rattle.run_verify.specs.Judged.{judged_of};

use report_verify::{Verdict, verify_line};
use std::alloc::{AllocError, Global};

/// A verdict, without the finding of a confirmed one.
#[derive(Clone, Copy)]
pub enum Judged {
    Confirmed,
    Denied,
    Malformed,
    Other,
}

fn judged_of(verdict: Verdict) -> Judged
    ensures { result ≡ judged_of verdict }
{
    match verdict {
        Verdict::Confirmed(_, _) => Judged::Confirmed,
        Verdict::Denied => Judged::Denied,
        Verdict::Malformed => Judged::Malformed,
        Verdict::Other => Judged::Other,
    }
}

/// What a line is found to be.
pub fn judge(alloc: Global, line: &[u8]) -> Result<Judged, AllocError>
    ensures { IfOk result (λ judged. judged ≡ judged_of (verdict_of line.now)) }
{
    Ok(judged_of(verify_line(alloc, line)?))
}
