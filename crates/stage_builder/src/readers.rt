//! How often the rows that are kept of each line are read.
ghost use Rattle.std.specs.Prelude.{◌≡◌, ℕ, ◌+◌, ◌-◌, ◌==◌, [], cond, IfOk, OnOk, slice_index_or};
ghost use Rattle.row_defs.specs.Operands.{is_stored_at};
ghost use Rattle.lop_chain.specs.Operands.{root_in};

use dia_edge::NoMemory;
use lop_chain::Root;
use std::alloc::Global;

/// For each line, by its number, how many operands read the rows that are kept of it.
#[derive(Drop)]
pub(crate) struct Readers {
    counts: Vec<u32>,
}

impl Readers {
    ghost use Rattle.stage_builder.specs.Tables.{counts_in, count_at};

    /// None yet.
    pub(crate) fn new(alloc: Global) -> Readers
        ensures { counts_in result ≡ [] }
    {
        Readers {
            counts: Vec::new(alloc),
        }
    }

    /// The same counts.
    pub(crate) fn copy(&self, alloc: Global) -> Result<Readers, NoMemory>
        ensures { IfOk result (λ readers. counts_in readers ≡ counts_in self.now) }
    {
        Ok(Readers {
            counts: Vec::from_slice(alloc, self.counts.as_slice())?,
        })
    }

    /// How many read the rows that are kept of this line.
    pub(crate) fn of(&self, line: u32) -> u32
        ensures { result ≡ count_at (counts_in self.now) line }
    {
        self.counts.get(line as usize).copied().unwrap_or(0)
    }

    /// One more reader of this root. Memory ends before a count is too great for 32 bits.
    pub(crate) fn add(&mut self, root: &Root) -> Result<(), NoMemory>
        ensures { OnOk result ((n : ℕ) → count_at (counts_in self.new) n ≡ count_at (counts_in self.old) n + cond (is_stored_at n (root_in root.now)) 1 0) }
    {
        let Root::Stored(line) = root else {
            return Ok(());
        };
        let at = *line as usize;
        if self.counts.len() <= at {
            self.counts.resize(at + 1, 0)?;
        }
        let Some(more) = self.counts[at].checked_add(1) else {
            return Err(NoMemory);
        };
        self.counts[at] = more;
        Ok(())
    }

    /// One reader of this root less.
    pub(crate) fn take(&mut self, root: &Root)
        ensures { (n : ℕ) → count_at (counts_in self.new) n ≡ count_at (counts_in self.old) n - cond (is_stored_at n (root_in root.now)) 1 0 }
    {
        let Root::Stored(line) = root else {
            return;
        };
        let at = *line as usize;
        if at < self.counts.len() {
            self.counts[at] = self.counts[at].saturating_sub(1);
        }
    }
}
