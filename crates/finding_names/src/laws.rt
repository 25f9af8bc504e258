//! The text of each thing is read as it. A function stands for its contract: it does nothing, and its `ensures` is proved for
//! everything that it speaks of.
ghost use Rattle.finding_names.specs.Laws.{AskIsRead, KindIsRead, PathIsRead, RuleIsRead};

/// The text of each rule is read as the rule.
#[tactic(auto, using(crate::proofs::NameLemmas::rule_read))]
pub fn rule_is_read()
    ensures { RuleIsRead }
{}

/// The name of each kind is read as the kind.
#[tactic(auto, using(crate::proofs::NameLemmas::kind_read))]
pub fn kind_is_read()
    ensures { KindIsRead }
{}

/// The text of each path is read as the path, where its index is 0 or shown, and has at most 32 bits.
#[tactic(auto, using(crate::proofs::PathLemmas::path_read))]
pub fn path_is_read()
    ensures { PathIsRead }
{}

/// The name and the keys of each ask are read as the ask, where its numbers are within the bounds of their types.
#[tactic(auto, using(crate::proofs::AskLemmas::ask_read_back))]
pub fn ask_is_read()
    ensures { AskIsRead }
{}
