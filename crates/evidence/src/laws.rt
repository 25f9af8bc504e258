//! Laws of the definitions. A function stands for its contract: it does nothing, and its `ensures` is proved for everything
//! that it speaks of.
ghost use Rattle.evidence.specs.DoesBreak.{DoesBreakIs};

/// Whether facts break a rule at a place computes: the definition as a Bool says what the definition as a fact says.
pub fn does_break_is_breaks()
    ensures { DoesBreakIs }
{}
