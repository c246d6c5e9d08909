//! A law of the marks. The function does nothing: its contract is the law.

ghost use Rattle.rh_script.specs.Notes.{NotesAreMarked};

/// A law: a line is of a kind, with this text behind its mark, exactly if it is the mark and then the text.
pub fn notes_are_marked()
    ensures { NotesAreMarked }
{}
