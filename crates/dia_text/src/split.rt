//! The words of a line.
ghost use Rattle.std.specs.Prelude.{◌≡◌, List, ℕ, map, IfOk};
ghost use Rattle.row_defs.specs.Pieces.{words_of};

use crate::cut::cut_off;
use dia_edge::NoMemory;
use std::alloc::Global;

/// The words of a line, which are parted by one or more spaces.
pub fn words(alloc: Global, line: &[u8]) -> Result<Vec<&[u8]>, NoMemory>
    ensures { IfOk result (λ words. map (λ word. word.now) words.items ≡ words_of line.now) }
{
    let mut words = Vec::new(alloc);
    let mut rest = line;
    while !rest.is_empty() {
        let (word, more) = cut_off(b' ', rest);
        if !word.is_empty() {
            words.push(word)?;
        }
        rest = more;
    }
    Ok(words)
}
