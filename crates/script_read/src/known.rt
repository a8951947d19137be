//! What is known before a line: the earlier lines.
ghost use Rattle.std.specs.Prelude.{◌≡◌, map, IfOk};
ghost use Rattle.std.specs.Option.{option_map};
ghost use Rattle.std.specs.List.{filter_map};
ghost use Rattle.script_defs.specs.Reading.{earlier_named};
ghost use Rattle.script_read.specs.Knowing.{known_in, earlier_at, named_in, named_among};
ghost use Rattle.script_read.specs.Sentences.{words_in};

use dia_edge::{Name, NoMemory};
use dia_item::Kinds;
use std::alloc::Global;

/// An earlier line.
#[derive(Drop)]
pub(crate) struct Earlier {
    pub number: u32,
    pub name: Name,
    pub kinds: Kinds,
}

/// What is known before a line.
#[derive(Drop)]
pub(crate) struct Known {
    pub lines: Vec<Earlier>,
}

fn is_named(line: &Earlier, word: &[u8]) -> bool
    ensures { result ≡ named_in word.now line.now }
{
    line.name.text().as_bytes() == word
}

fn find_named<'k>(lines: &'k [Earlier], word: &[u8]) -> Option<&'k Earlier>
    ensures { option_map earlier_at result ≡ named_among lines.now word.now }
{
    for line in lines {
        if is_named(line, word) {
            return Some(line);
        }
    }
    None
}

impl Known {
    /// The earlier line with this name.
    pub(crate) fn named(&self, word: &[u8]) -> Option<&Earlier>
        ensures { option_map earlier_at result ≡ earlier_named (known_in self.now) word.now }
    {
        find_named(self.lines.as_slice(), word)
    }

    /// The earlier lines that these words name.
    pub(crate) fn operands(&self, alloc: Global, names: &[&[u8]]) -> Result<Vec<&Earlier>, NoMemory>
        ensures { IfOk result (λ lines. map earlier_at lines.items ≡ filter_map (earlier_named (known_in self.now)) (words_in names.now)) }
    {
        let mut lines = Vec::new(alloc);
        for name in names {
            if let Some(line) = self.named(name) {
                lines.push(line)?;
            }
        }
        Ok(lines)
    }
}
