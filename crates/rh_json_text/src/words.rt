//! Parts of a text.

ghost use Rattle.std.specs.Prelude.{◌≡◌, ◌==◌, ◌≤◌, length};
ghost use Rattle.std.specs.List.{position_or_len, before_first, after_first};

// The first place at which this byte stands, or the length.
fn place_of(text: &[u8], byte: u8) -> usize
    ensures place { result ≡ position_or_len (λ b. b == byte) text.now }
    ensures within { result ≤ length text.now }
{
    let mut place = 0;
    'bytes: while place < text.len() {
        if text[place] == byte {
            return place;
        }
        place += 1;
    }
    place
}

/// What stands before the first such byte: all, where there is none.
pub fn before_first(text: &[u8], byte: u8) -> &[u8]
    ensures { result.now ≡ before_first (λ b. b == byte) text.now }
{
    let place = place_of(text, byte);
    &text[..place]
}

/// What stands behind the first such byte: nothing, where there is none.
pub fn after_first(text: &[u8], byte: u8) -> &[u8]
    ensures { result.now ≡ after_first (λ b. b == byte) text.now }
{
    let place = place_of(text, byte);
    if place < text.len() {
        &text[place + 1..]
    } else {
        &text[place..]
    }
}
