//! In which manner a script is run and what is found listed, and how much a search may keep.

/// In which manner a script is run.
#[derive(Clone, Copy, Debug, PartialEq, Eq)]
pub struct Manner {
    /// Each command is printed before its answer.
    pub echo: bool,
    /// A step that was refused is a fault at the end.
    pub strict: bool,
}

/// How lint lists what it finds.
#[derive(Clone, Copy, Debug, PartialEq, Eq)]
pub struct LintManner {
    /// The steps behind one that hangs on live nodes are told of, too. By the rules of live nodes they are in any case.
    pub all: bool,
    /// Hints count as warnings do.
    pub strict: bool,
    /// Each line is an object of JSON.
    pub json: bool,
}

/// How much a search may keep.
#[derive(Clone, Copy, Debug, PartialEq, Eq)]
pub struct SearchRoom {
    /// At most so many states.
    pub states: usize,
    /// No more states once the keys of those that are kept take so many mebibytes (1,048,576 bytes).
    pub mebibytes: u32,
}
