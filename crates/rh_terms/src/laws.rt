//! Laws of the grammar. The functions do nothing: their contracts are the laws.

ghost use Rattle.std.specs.Prelude.{◌≡◌, ◌≤◌, List, ℕ, length};
ghost use Rattle.rh_terms.specs.Fronts.{StopsAt};
ghost use Rattle.rh_terms.specs.Grammar.{dotted, some_terms, term_at};
ghost use Rattle.rh_terms.specs.Spelling.{AreDotted};
ghost use Rattle.rh_base.specs.Tree.{Trees};

/// The law that no text has two readings.
pub fn one_reading()
    ensures { (ts us : Trees) (bytes : List ℕ) → AreDotted ts bytes → AreDotted us bytes → ts ≡ us }
{}

/// The law that a text stops at one line at most.
pub fn stops_at_one_line()
    ensures { (bytes : List ℕ) (line other : ℕ) → StopsAt line bytes → StopsAt other bytes
        → line ≡ other }
{}

/// The law that the definition's bounds on the number of elements and of terms are never met:
/// from as many as there are bytes on, more of them change nothing.
pub fn bounds_are_never_met()
    ensures elements { (room close n m : ℕ) (bs : List ℕ) → length bs ≤ n → length bs ≤ m →
        some_terms (term_at room) close n bs ≡ some_terms (term_at room) close m bs }
    ensures terms { (n m : ℕ) (bs : List ℕ) → length bs ≤ n → length bs ≤ m
        → dotted n bs ≡ dotted m bs }
{}
