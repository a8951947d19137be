//! A set of lines.
ghost use Rattle.std.specs.Prelude.{◌≡◌, ◌++◌, ◌∷◌, [], ℕ, List, true, ◌==◌, if◌then◌else◌, OnOk};
ghost use Rattle.stage_builder.specs.Tables.{lines_in, has_line, IsSetOf};

use dia_edge::NoMemory;
use std::alloc::Global;

/// A set of lines: at each line's number, whether it is there.
#[derive(Drop)]
pub(crate) struct LineSet {
    there: Vec<bool>,
}

impl LineSet {
    /// No line.
    pub(crate) fn new(alloc: Global) -> LineSet
        ensures { IsSetOf (lines_in result) [] }
    {
        LineSet {
            there: Vec::new(alloc),
        }
    }

    /// Whether this line is there.
    pub(crate) fn has(&self, line: u32) -> bool
        ensures { result ≡ has_line (lines_in self.now) line }
    {
        self.there.get(line as usize).copied().unwrap_or(false)
    }

    /// This line too.
    pub(crate) fn add(&mut self, line: u32) -> Result<(), NoMemory>
        ensures { OnOk result ((n : ℕ) → has_line (lines_in self.new) n ≡ if line == n then true else has_line (lines_in self.old) n) }
    {
        let at = line as usize;
        if self.there.len() <= at {
            self.there.resize(at + 1, false)?;
        }
        self.there[at] = true;
        Ok(())
    }
}
