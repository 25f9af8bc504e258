//! Laws of what is cached. A function stands for its contract: it does nothing, and its `ensures` is proved for every timetable and every state.
ghost use Rattle.cached_laws.specs.Laws.{JudgedIsChange, JudgedIsOwed, KeysAreCounted, TouchedCanPass};

/// What is held is what is owed for a snapshot once its parts are judged again under the keys that it touched alone, and each list has what its part
/// finds.
pub fn judged_is_owed()
    ensures { JudgedIsOwed }
{}

/// What was told meanwhile is what the snapshot changed.
pub fn judged_is_change()
    ensures { JudgedIsChange }
{}

/// Under the keys that a snapshot touches entities are there, and their lists are in order.
pub fn touched_can_pass()
    ensures { TouchedCanPass }
{}

/// These keys are as many as the entities that the definitions call tested, paired, bounded and peaked.
pub fn keys_are_counted()
    ensures { KeysAreCounted }
{}
