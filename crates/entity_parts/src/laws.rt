//! Laws of the parts. A function stands for its contract: it does nothing.
ghost use Rattle.entity_parts.specs.Whole.{PartsAreTheWhole, PartsRise};

/// An entity's parts renewed, each by what is found of it, and merged, are all of its findings renewed.
pub fn parts_are_the_whole()
    ensures { PartsAreTheWhole }
{}

/// Each part is in the order of findings.
pub fn parts_rise()
    ensures { PartsRise }
{}
