//! A scan of a text of terms, byte by byte.

ghost use Rattle.std.specs.Prelude.{◌≡◌};
ghost use Rattle.rh_findings.specs.Scan.{is_white, is_atom_byte, behind_inside, behind, begins_term, is_bare, is_solid};

/// What a byte of a text stands in.
#[derive(Clone, Copy, Debug, PartialEq, Eq)]
pub enum Standing {
    /// Between two terms.
    Between,
    /// In a comment there.
    Remark,
    /// In a term.
    Inside,
    /// In a comment there.
    InsideRemark,
    /// Between two of these quotes.
    Quoted(u8),
    /// Behind a `\` there.
    Escaped(u8),
}

// Is it white space?
fn is_white(byte: u8) -> bool
    ensures { result ≡ is_white byte }
{
    byte == b' ' || (byte >= 9 && byte <= 13)
}

/// Is it a letter, a digit, `_` or `@`, which an atom without quotes has?
pub fn is_atom_byte(byte: u8) -> bool
    ensures { result ≡ is_atom_byte byte }
{
    (byte >= b'a' && byte <= b'z')
        || (byte >= b'@' && byte <= b'Z')
        || (byte >= b'0' && byte <= b'9')
        || byte == b'_'
}

// What the next byte stands in, behind a byte of a term.
fn behind_inside(byte: u8) -> Standing
    ensures { result ≡ behind_inside byte }
{
    if byte == b'.' {
        Standing::Between
    } else if byte == b'%' {
        Standing::InsideRemark
    } else if byte == b'"' || byte == b'\'' {
        Standing::Quoted(byte)
    } else {
        Standing::Inside
    }
}

impl Standing {
    /// What the next byte stands in.
    pub fn behind(self, byte: u8) -> Standing
        ensures { result ≡ behind self byte }
    {
        match self {
            Standing::Between => {
                if is_white(byte) {
                    Standing::Between
                } else if byte == b'%' {
                    Standing::Remark
                } else {
                    behind_inside(byte)
                }
            }
            Standing::Remark => {
                if byte == b'\n' {
                    Standing::Between
                } else {
                    Standing::Remark
                }
            }
            Standing::Inside => behind_inside(byte),
            Standing::InsideRemark => {
                if byte == b'\n' {
                    Standing::Inside
                } else {
                    Standing::InsideRemark
                }
            }
            Standing::Quoted(quote) => {
                if byte == b'\\' {
                    Standing::Escaped(quote)
                } else if byte == quote {
                    Standing::Inside
                } else {
                    Standing::Quoted(quote)
                }
            }
            Standing::Escaped(quote) => Standing::Quoted(quote),
        }
    }

    /// Does a byte stand outside comments and quotes here?
    pub fn is_bare(self) -> bool
        ensures { result ≡ is_bare self }
    {
        matches!(self, Standing::Between | Standing::Inside)
    }

    /// Is this byte one of a term here, and no blank and none of a comment?
    pub fn is_solid(self, byte: u8) -> bool
        ensures { result ≡ is_solid self byte }
    {
        match self {
            Standing::Between | Standing::Inside => !(is_white(byte) || byte == b'%'),
            Standing::Remark | Standing::InsideRemark => false,
            Standing::Quoted(_) | Standing::Escaped(_) => true,
        }
    }

    /// Is this byte the first of a term?
    pub fn begins_term(self, byte: u8) -> bool
        ensures { result ≡ begins_term self byte }
    {
        match self {
            Standing::Between => !is_white(byte) && byte != b'%',
            _ => false,
        }
    }
}
