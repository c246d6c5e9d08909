//! Kinds of comment lines, by their marks.

ghost use Rattle.std.specs.Prelude.{◌≡◌};
ghost use Rattle.std.specs.Option.{option_map};
ghost use Rattle.rh_script.specs.Notes.{mark, kind_of, note_of, is_told};

/// What a comment line of a script tells.
#[derive(Clone, Copy, Debug, PartialEq, Eq)]
pub enum Kind {
    /// `#= `: a line of the answer to the command above it.
    Answer,
    /// `#@ `: the time at which the lines below it were told, in milliseconds.
    Time,
    /// `#- `: why the line above it was told.
    Reason,
    /// `#| `: a line of the table at the end.
    Table,
    /// `#? `: a line that the report behind the command above it is to have.
    Wanted,
}

/// What a line of this kind begins with.
pub fn mark(kind: Kind) -> &'static str
    ensures { result.now ≡ mark kind }
{
    match kind {
        Kind::Answer => "#= ",
        Kind::Time => "#@ ",
        Kind::Reason => "#- ",
        Kind::Table => "#| ",
        Kind::Wanted => "#? ",
    }
}

// The kind of a line whose second byte this is.
fn kind_of(sign: u8) -> Option<Kind>
    ensures { result ≡ kind_of sign }
{
    match sign {
        b'=' => Some(Kind::Answer),
        b'@' => Some(Kind::Time),
        b'-' => Some(Kind::Reason),
        b'|' => Some(Kind::Table),
        b'?' => Some(Kind::Wanted),
        _ => None,
    }
}

/// The kind of a line, and the text behind its mark. The line comes without its end. There is nothing for all other lines.
pub fn note_of(line: &[u8]) -> Option<(Kind, &[u8])>
    ensures { option_map (λ note. (note.0, note.1.now)) result ≡ note_of line.now }
{
    match line {
        [b'#', sign, b' ', text @ ..] => Some((kind_of(*sign)?, text)),
        _ => None,
    }
}

/// Whether a story writes this line anew: an answer, a time, a reason or a line of a table. What is wanted in a report is the
/// author's, and stays. The line comes without its end.
pub fn is_told(line: &[u8]) -> bool
    ensures { result ≡ is_told line.now }
{
    match note_of(line) {
        Some((Kind::Answer | Kind::Time | Kind::Reason | Kind::Table, _)) => true,
        Some((Kind::Wanted, _)) | None => false,
    }
}
