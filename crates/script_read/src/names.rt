//! Names and the bytes of a line.
ghost use Rattle.std.specs.Prelude.{◌≡◌, ◌∷◌, length};
ghost use Rattle.std.specs.List.{list_all};
ghost use Rattle.script_defs.specs.Reading.{is_lower, is_name_byte, is_name, is_printable};

use crate::numbers::is_digit;

fn is_lower(b: u8) -> bool
    ensures { result ≡ is_lower b }
{
    97 <= b && b <= 122
}

fn is_name_byte(b: u8) -> bool
    ensures { result ≡ is_name_byte b }
{
    is_lower(b) || is_digit(b) || b == b'_'
}

fn are_name_bytes(bytes: &[u8]) -> bool
    ensures { result ≡ list_all is_name_byte bytes.now }
{
    bytes.iter().all(|b| is_name_byte(*b))
}

/// A lower-case letter, and up to 31 lower-case letters, digits and `_`.
pub(crate) fn is_name(word: &[u8]) -> bool
    ensures { result ≡ is_name word.now }
{
    match word.split_first() {
        None => false,
        Some((first, rest)) => { is_lower(*first) && rest.len() <= 31 && are_name_bytes(rest) }
    }
}

/// No byte outside 0x20 to 0x7E.
pub(crate) fn is_printable(line: &[u8]) -> bool
    ensures { result ≡ list_all is_printable line.now }
{
    line.iter().all(|b| 32 <= *b && *b <= 126)
}
