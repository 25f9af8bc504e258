//! Values as lines.
ghost use Rattle.std.specs.Prelude.{◌≡◌, IfOk, false};
ghost use Rattle.serde_json.specs.View.{view};
ghost use Rattle.serde_json.specs.Written.{has_float};
ghost use Rattle.snapshot_lines.specs.Lines.{line_of};

use serde_json::Value;
use std::alloc::{AllocError, Global};

/// A value's compact text and a line feed.
pub fn line_of(alloc: Global, value: &Value) -> Result<Vec<u8>, AllocError>
    requires { has_float (view value.now) ≡ false }
    ensures { IfOk result (λ bytes. bytes.items ≡ line_of (view value.now)) }
{
    let mut text = value.to_string(alloc)?;
    text.push('\n')?;
    Ok(text.into_bytes())
}
