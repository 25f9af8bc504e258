//! Laws of what changes. A function stands for its contract: it does nothing, and its `ensures` is proved for every snapshot and every history.
ghost use Rattle.entity_index.specs.Laws.{FreshAreTested, FreshAreThere};

/// The places of entities that are new or have other bytes are as many as the entities that the definitions call tested.
pub fn fresh_are_tested()
    ensures { FreshAreTested }
{}

/// Under the key beside each of these places is the entity at the place.
pub fn fresh_are_there()
    ensures { FreshAreThere }
{}
