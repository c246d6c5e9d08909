//! What Erlang reads, and the reader of cluster files doesn't.

ghost use Rattle.std.specs.Prelude.{◌≡◌};
ghost use Rattle.std.specs.List.{find};
ghost use Rattle.rh_cluster_lint.specs.Constructs.{byte_at, is_digit, goes_before, begins_here, stands_in, construct_in, construct_words};

/// A construct of Erlang that isn't read.
#[derive(Clone, Copy, Debug, PartialEq, Eq)]
pub enum Construct {
    Binary,
    Map,
    BasedInteger,
    Float,
    Char,
    Fun,
    Variable,
}

static CONSTRUCTS: [Construct; 7] = [
    Construct::Binary,
    Construct::Map,
    Construct::BasedInteger,
    Construct::Float,
    Construct::Char,
    Construct::Fun,
    Construct::Variable,
];

// The byte at a place, or 0.
pub fn byte_at(bytes: &[u8], place: usize) -> u8
    ensures { result ≡ byte_at bytes.now place }
{
    bytes.get(place).copied().unwrap_or(0)
}

// Is it a digit?
fn is_digit(byte: u8) -> bool
    ensures { result ≡ is_digit byte }
{
    byte >= b'0' && byte <= b'9'
}

// Can it stand right before or behind a word?
fn goes_before(byte: u8) -> bool
    ensures { result ≡ goes_before byte }
{
    byte == b' ' || byte == b',' || byte == b'[' || byte == b'{' || byte == b'('
}

// Does a construct begin with this byte, before these? A word begins behind the byte.
#[tactic(auto, unfolding(crate::specs::Constructs::begins_here))]
fn begins_here(construct: Construct, first: u8, rest: &[u8]) -> bool
    ensures { result ≡ begins_here construct first rest.now }
{
    let second = byte_at(rest, 0);
    match construct {
        Construct::Binary => first == b'<' && second == b'<',
        Construct::Map => first == b'#' && second == b'{',
        Construct::BasedInteger => is_digit(first) && second == b'#',
        Construct::Float => is_digit(first) && second == b'.' && is_digit(byte_at(rest, 1)),
        Construct::Char => first == b'$',
        Construct::Fun => {
            goes_before(first) && rest.starts_with(b"fun") && goes_before(byte_at(rest, 3))
        }
        Construct::Variable => {
            goes_before(first) && ((second >= b'A' && second <= b'Z') || second == b'_')
        }
    }
}

// Does it stand in a line?
fn stands_in(construct: Construct, line: &[u8]) -> bool
    ensures { result ≡ stands_in construct line.now }
{
    for at in 0..line.len() {
        if begins_here(construct, line[at], &line[at + 1..]) {
            return true;
        }
    }
    false
}

// The first of these that stands in a line.
fn construct_among(line: &[u8], constructs: &[Construct]) -> Option<Construct>
    ensures { result ≡ find (λ c. stands_in c line.now) constructs.now }
{
    for number in 0..constructs.len() {
        let construct = constructs[number];
        if stands_in(construct, line) {
            return Some(construct);
        }
    }
    None
}

impl Construct {
    // What is told of it.
    fn words(self) -> &'static str
        ensures { result.now ≡ construct_words self }
    {
        match self {
            Construct::Binary => "; << begins a binary, which isn't read",
            Construct::Map => "; #{ begins a map, which isn't read",
            Construct::BasedInteger => "; an integer with a base, as 16#ff, isn't read",
            Construct::Float => "; a float, as 1.5, isn't read",
            Construct::Char => "; a character, as $a, isn't read: write its number",
            Construct::Fun => "; a fun isn't read",
            Construct::Variable => {
                "; what begins with a capital or _ is a variable: quotes make it a name"
            }
        }
    }
}

/// What is told of the construct that stands in a line; nothing where there is none.
pub fn construct_told(line: &[u8]) -> &'static str
    ensures { result.now ≡ construct_in line.now }
{
    match construct_among(line, CONSTRUCTS.as_slice()) {
        Some(construct) => construct.words(),
        None => "",
    }
}
