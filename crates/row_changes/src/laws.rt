//! Laws of rows and timestamps that are held. A function stands for its contract: it does nothing.
ghost use Rattle.row_changes.specs.Held.{AllIsReplaced, AreAlikeHeld, AreHeldRows, NoneIsLater, NothingIsHeld, OverKeysAre, PairedKeysAre, StartReplaces, UpdateReplaces};

/// Nothing is held of no entities.
pub fn nothing_is_held()
    ensures { NothingIsHeld }
{}

/// Rows that are those of the entities of all feeds are the rows of these feeds.
pub fn held_rows_are_those()
    ensures { AreHeldRows }
{}

/// In their order they are alike the rows of these feeds, and so answer alike for every entity.
pub fn held_rows_are_alike()
    ensures { AreAlikeHeld }
{}

/// Before an entity was taken what is held is that of the old ones, and no ids changed.
pub fn start_replaces()
    ensures { StartReplaces }
{}

/// One update does one key more, where it wasn't done.
pub fn update_replaces()
    ensures { UpdateReplaces }
{}

/// When all keys are done at which an entity came, went or is another, what is held is that of the feeds as they are now, and the ids are
/// those of all rows that came or went.
pub fn all_is_replaced()
    ensures { AllIsReplaced }
{}

/// The keys to be judged again with pairing rows are those at which a row came or went that shares an id with theirs, or at which the other
/// kind turned.
pub fn paired_keys_are()
    ensures { PairedKeysAre }
{}

/// The keys above a bound are those of the entities with a timestamp above it.
pub fn over_keys_are()
    ensures { OverKeysAre }
{}

/// An entity has no timestamp above a bound where none of its slots for timestamps is above it.
pub fn none_is_later()
    ensures { NoneIsLater }
{}
