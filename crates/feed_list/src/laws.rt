//! The law of lists. The function stands for its contract: it does nothing, and its `ensures` is proved for all lists.
ghost use Rattle.feed_list.specs.Laws.{ListFollowsItsRows};

/// An accepted list has a row for each record of its file, in order; and a refused one, that isn't too large, is refused
/// for its first record that is no row.
#[tactic(auto, using(crate::proofs::ListRows::list_follows_its_rows))]
pub fn list_follows_its_rows()
    ensures { ListFollowsItsRows }
{}
