//! A law of the words of calls. The function does nothing: its contract is the law.

ghost use Rattle.rh_script.specs.Laws.{WordsAskAgain, EntriesAskAgain, ScriptsAskAgain, SessionsAskAgain, AskedAreTold, CommandsAreTold, ClustersHaveWords};

/// The law that the words of a call ask for that call again. It holds on the cluster of any text, of each call that a line asks,
/// unless a node or an application is named `?`, as a name is shown that the cluster hasn't.
pub fn words_ask_again()
    // The words of a call are a line that asks it,
    ensures words { WordsAskAgain }
    // and behind the number of a session one that asks it of that session.
    ensures entries { EntriesAskAgain }
    // The words of calls, each on a line of its own, are a script that asks these calls,
    ensures scripts { ScriptsAskAgain }
    // and behind the numbers of sessions one that asks them of these.
    ensures sessions { SessionsAskAgain }
    // Each call that a line asks is one of those that the law speaks of,
    ensures asked { AskedAreTold }
    // and so is each that a line of a session asks.
    ensures commands { CommandsAreTold }
    // The names of each cluster that is read are such as the law asks for.
    ensures names { ClustersHaveWords }
{}
