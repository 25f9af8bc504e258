//! Texts and numbers at the keys of a tree.
ghost use Rattle.std.specs.Prelude.{◌≡◌, option_copied};
ghost use Rattle.serde_json.specs.View.{view};
ghost use Rattle.report_lines.specs.Lines.{count_at, text_at};

use serde_json::Value;

/// The text at a key.
pub fn text_at<'a>(value: &'a Value, key: &str) -> Option<&'a str>
    ensures { option_copied result ≡ text_at key.now (view value.now) }
{
    value.get(key)?.as_str()
}

/// The number at a key, where it is a whole one of 64 bits and not below 0.
pub fn count_at(value: &Value, key: &str) -> Option<u64>
    ensures { result ≡ count_at key.now (view value.now) }
{
    value.get(key)?.as_u64()
}
