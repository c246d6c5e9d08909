//! A law of what is told of the words behind a command. The function does nothing: its contract is the law.

ghost use Rattle.rh_line_lint.specs.Laws.{WordsAreTaken, ChoicesAreTaken, BadAreBlamed};

/// What is told of the words behind a command is as a script is read.
pub fn blame_is_as_read()
    // A word is one that its argument takes exactly where the reader of commands takes it,
    ensures taken { WordsAreTaken }
    // the few words of which one may be told to be near are those that the argument takes,
    ensures choices { ChoicesAreTaken }
    // and something is told of the words behind a command exactly where they make no command.
    ensures told { BadAreBlamed }
{}
