//! The rule of names.

ghost use Rattle.std.specs.Prelude.{◌≡◌};
ghost use Rattle.std.specs.List.{list_all};
ghost use Rattle.rh_cluster.specs.NameRule.{is_name_byte, is_name};

/// The most bytes of a name.
pub const LONGEST_NAME: usize = 255;

/// Control bytes and the space come up to here.
pub const SPACE: u8 = b' ';

/// The control byte above the letters.
pub const DELETE: u8 = b'\x7f';

// Is it neither a space nor a control byte?
fn is_name_byte(byte: u8) -> bool
    ensures { result ≡ is_name_byte byte }
{
    SPACE < byte && byte != DELETE
}

// Are all of them bytes of a name?
fn are_name_bytes(bytes: &[u8]) -> bool
    ensures { result ≡ list_all is_name_byte bytes.now }
{
    bytes.iter().all(|byte| is_name_byte(*byte))
}

/// Does it follow the rule of names: 1 to 255 bytes, of which none is a space or a control byte?
#[tactic(auto, unfolding(crate::specs::NameRule::is_name))]
pub fn is_name(name: &str) -> bool
    ensures { result ≡ is_name name.now }
{
    let bytes = name.as_bytes();
    !bytes.is_empty() && bytes.len() <= LONGEST_NAME && are_name_bytes(bytes)
}
