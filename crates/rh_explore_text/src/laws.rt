//! What ties the lines of a search to what a search prints. The function does nothing: its contract is the law.

ghost use Rattle.rh_explore_text.specs.Laws.{SearchBaseIsAnswered};

/// A law: where no line of a search is bad, the commands that have lines are those of its base, which [`crate::run_explore`] answers, in
/// their order.
pub fn search_base_is_answered()
    ensures { SearchBaseIsAnswered }
{}
