//! Commands that take options.

/// A command that takes options before its files.
#[derive(Clone, Copy, Debug, PartialEq, Eq)]
pub enum Command {
    Check,
    Follow,
    Predict,
    Alerts,
}
