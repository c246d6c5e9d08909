//! A law of terms in prefix notation. The function does nothing: its contract is the law.

ghost use Rattle.std.specs.Prelude.{◌≡◌, ◌++◌, List};
ghost use Rattle.rh_base.specs.Tree.{Tree, Trees};
ghost use Rattle.rh_model.specs.TermSymbols.{TermSymbol, symbols_of, symbols_of_all};

/// The law that symbols tell terms: equal symbols are of equal terms, also where more follows them, and equal symbols of
/// lists are of equal lists.
pub fn symbols_tell_terms()
    ensures terms { (t u : Tree) → symbols_of t ≡ symbols_of u → t ≡ u }
    ensures fronts { (t u : Tree) (more others : List TermSymbol)
        → symbols_of t ++ more ≡ symbols_of u ++ others → t ≡ u }
    ensures lists { (ts us : Trees) → symbols_of_all ts ≡ symbols_of_all us → ts ≡ us }
{}
