//! Paths by their texts.
ghost use Rattle.std.specs.Prelude.{◌≡◌, ◌<◌, ◌==◌};
ghost use Rattle.std.specs.List.{before_first, after_first};
ghost use Rattle.finding_names.specs.Paths.{item_path, plain_path, path_named};

use crate::numbers::u32_named;
use crate::slots::{item_slot, plain_slot};
use feed_values::Path;

/// The path of a text, such as `trip_update.stop_time_update[3].arrival.time`.
pub fn path_named(text: &str) -> Option<Path>
    ensures { result ≡ path_named text.now }
{
    let (before, rest) = cut_at_opening(text);
    let (index, after) = cut_at_closing(rest);
    match item_path(before, index, after) {
        Some(path) => Some(path),
        None => plain_path(text),
    }
}

/// What stands before a text's first opening bracket, and behind it.
fn cut_at_opening(text: &str) -> (&str, &str)
    ensures before { result.0.now ≡ before_first (λ byte. byte == 91) text.now }
    ensures after { result.1.now ≡ after_first (λ byte. byte == 91) text.now }
{
    match text.split_once('[') {
        Some(parts) => parts,
        None => (text, ""),
    }
}

/// What stands before a text's first closing bracket, and behind it.
fn cut_at_closing(text: &str) -> (&str, &str)
    ensures before { result.0.now ≡ before_first (λ byte. byte == 93) text.now }
    ensures after { result.1.now ≡ after_first (λ byte. byte == 93) text.now }
{
    match text.split_once(']') {
        Some(parts) => parts,
        None => (text, ""),
    }
}

/// The path with these texts before and behind an index.
fn item_path(before: &str, index: &str, after: &str) -> Option<Path>
    ensures { result ≡ item_path before.now index.now after.now }
{
    let index = u32_named(index)?;
    let slot = item_slot(before, after)?;
    Some(Path { slot, index })
}

/// The path of a text without an index.
fn plain_path(text: &str) -> Option<Path>
    ensures { result ≡ plain_path text.now }
{
    let slot = plain_slot(text)?;
    Some(Path { slot, index: 0 })
}
