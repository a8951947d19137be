//! Numbers in a script.
ghost use Rattle.std.specs.Prelude.{◌≡◌};
ghost use Rattle.std.specs.Option.{option_map};
ghost use Rattle.row_defs.specs.Texts.{is_decimal};
ghost use Rattle.script_defs.specs.Reading.{value_in};
ghost use Rattle.script_read.specs.Sentences.{bytes_in};

use dia_expr::number_spelled;

pub(crate) fn is_digit(b: u8) -> bool
    ensures { result ≡ is_decimal b }
{
    48 <= b && b <= 57
}

/// The number in a place; 0 where it holds none.
pub(crate) fn value_in(word: Option<&[u8]>) -> u64
    ensures { result ≡ value_in (option_map bytes_in word.entry) }
{
    match word {
        None => 0,
        Some(word) => number_spelled(word).unwrap_or(0),
    }
}
