//! Laws of the definitions of stories. Each function does nothing: its contract is the law.

ghost use Rattle.rh_story_laws.specs.Again.{StoryOfAStoryIsItself};
ghost use Rattle.rh_story_laws.specs.Answers.{StoryAnswersAreRuns};
ghost use Rattle.rh_story_laws.specs.Lengths.{LengthsAddUpInSimulations};
ghost use Rattle.rh_story_laws.specs.Ticks.{NoticesOfATickAreRuns};
ghost use Rattle.rh_story_laws.specs.Verified.{WholeStoriesHold, OnlyReportsDiffer};

/// The lines `#= ` of a story, without the mark, are what `run` writes of the same input, where each line of the input is a command, a
/// comment or blank.
pub fn story_answers_are_runs()
    ensures { StoryAnswersAreRuns }
{}

/// What a story tells of an accepted tick is, times left out, what `run` answers to it. Each time is that at which a timer fired, and
/// below it stands what this timer told; the times lie within the tick, and never fall.
pub fn notices_of_a_tick_are_runs()
    ensures { NoticesOfATickAreRuns }
{}

/// In each simulation, since an application first ran, how long it ran and how long it ran nowhere are together the time up to now.
pub fn lengths_add_up_in_simulations()
    ensures { LengthsAddUpInSimulations }
{}

/// The whole story of a whole story is itself, byte for byte, where each line of the input's script is a command, a comment or blank.
pub fn story_of_a_story_is_itself()
    ensures { StoryOfAStoryIsItself }
{}

/// What a verification finds in the whole story of an input each line of whose script is a command, a comment or blank.
pub fn whole_stories_hold()
    // It checks each command, finds nothing to differ and ends in success, where the input has no line `#?`.
    ensures hold { WholeStoriesHold }
    // A story keeps such a line, and what it wants of a report is all that can differ.
    ensures reports { OnlyReportsDiffer }
{}
