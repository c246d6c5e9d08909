//! A finding.

ghost use Rattle.std.specs.Prelude.{◌≡◌};
ghost use Rattle.rh_findings.specs.Order.{rank, place};
ghost use Rattle.rh_findings.specs.Report.{kind_word, is_of};

use rh_base::Str;

/// How much a finding is worth.
#[derive(Clone, Copy, Debug, PartialEq, Eq)]
pub enum Kind {
    /// It can't be read, or isn't there.
    Error,
    /// It can't be meant, or a live OTP takes it otherwise: an operator has to do something.
    Warning,
    /// A live OTP may take it otherwise.
    Hint,
}

/// Something that was found in an input.
#[derive(Debug, Drop)]
pub struct Finding {
    /// The number of its line, counted from 1, where it is known.
    pub line: Option<u64>,
    pub kind: Kind,
    /// Its code, a colon, and words for a person.
    pub text: Str,
    /// The way to it from its term on, where it is known: `node a@x, kernel`.
    pub path: Option<Str>,
}

impl Kind {
    /// Its word.
    pub fn word(self) -> &'static str
        ensures { result.now ≡ kind_word self }
    {
        match self {
            Kind::Error => "error",
            Kind::Warning => "warning",
            Kind::Hint => "hint",
        }
    }

    /// Is it this kind?
    pub fn is(self, kind: Kind) -> bool
        ensures { result ≡ is_of kind self }
    {
        match kind {
            Kind::Error => matches!(self, Kind::Error),
            Kind::Warning => matches!(self, Kind::Warning),
            Kind::Hint => matches!(self, Kind::Hint),
        }
    }

    // The place of its kind among findings of one line.
    fn rank(self) -> u128
        ensures { result ≡ rank self }
    {
        match self {
            Kind::Error => 0,
            Kind::Warning => 1,
            Kind::Hint => 2,
        }
    }
}

impl Finding {
    // The number by which findings are put in order.
    pub fn place(&self) -> u128
        ensures { result ≡ place self.now }
    {
        let line = self.line.unwrap_or(0);
        3 * (line as u128) + self.kind.rank()
    }
}
