//! Members and items, as tokens of a JSON text.
ghost use Rattle.std.specs.Prelude.{[], ◌∷◌, OnOk, decimal};
ghost use Rattle.json.specs.Token as token;
ghost use Rattle.rt_report.specs.Tokens.{Adds};

use json::Writer;
use std::alloc::AllocError;

/// Appends a member that is a count.
pub(crate) fn push_count(out: &mut Writer, name: &str, count: u64) -> Result<(), AllocError>
    ensures { OnOk result (Adds out.old out.new (token.key name.now ∷ token.number (decimal count) ∷ [])) }
{
    out.key(name)?;
    out.u64(count)
}

/// Appends a member that is a text.
pub(crate) fn push_text(out: &mut Writer, name: &str, text: &str) -> Result<(), AllocError>
    ensures { OnOk result (Adds out.old out.new (token.key name.now ∷ token.string text.now ∷ [])) }
{
    out.key(name)?;
    out.string(text)
}

/// Appends an item that is a text.
pub(crate) fn push_item(out: &mut Writer, text: &str) -> Result<(), AllocError>
    ensures { OnOk result (Adds out.old out.new (token.string text.now ∷ [])) }
{
    out.string(text)
}
