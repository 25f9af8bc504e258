//! Laws of the definitions. A function stands for its contract: it does nothing, and its `ensures` is proved for everything that it
//! speaks of.
ghost use Rattle.rule_tally.specs.Laws.{NamesHaveTheirLastMark, NamesRise};

/// Of names that were given marks, each stands once, with the mark that it was given last.
pub fn names_have_their_last_mark()
    ensures last { NamesHaveTheirLastMark }
    ensures once { NamesRise }
{}
