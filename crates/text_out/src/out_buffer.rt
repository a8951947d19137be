//! A buffer before a sink.
ghost use Rattle.std.specs.Prelude.{◌≡◌, ◌≤◌, ◌+◌, ◌++◌, [], length, IfOk, OnOk};
ghost use Rattle.dia_edge.specs.Sinks.{Puts};

use dia_edge::{Failed, NoMemory, Sink};
use dia_item::append;
use std::alloc::Global;
use std::marker::Model;

/// How many bytes wait at most.
pub const MOST_WAITING: usize = 65_536;

/// Bytes that wait to be put to a sink, 64 KiB at most, in room that was had at its making.
///
/// After a failure it may only be dropped.
#[derive(Drop)]
pub struct OutBuffer {
    waiting: Vec<u8>,
}

impl Model for OutBuffer {
    ghost use Rattle.std.specs.Prelude.{List, ℕ, ◌≤◌, vec_len, vec_capacity};
    ghost use Rattle.text_out.specs.declared.out_buffer.TheConstants.{MOST_WAITING};

    ghost Value = { List ℕ };

    ghost view = { λ b. b.waiting.items };

    ghost invariant = { λ b. (vec_len b.waiting ≤ MOST_WAITING) × (MOST_WAITING ≤ vec_capacity b.waiting) };
}

impl OutBuffer {
    /// Nothing waits.
    pub fn new(alloc: Global) -> Result<OutBuffer, NoMemory>
        ensures { IfOk result (λ buffer. buffer ≡ []) }
    {
        Ok(OutBuffer {
            waiting: Vec::with_capacity(alloc, MOST_WAITING)?,
        })
    }

    /// Puts what waits.
    pub fn flush<S: Sink>(&mut self, out: &mut S) -> Result<(), Failed>
        ensures puts { Puts S.taken S.faults out.old out.new self.old self.new result }
        ensures empty { OnOk result (self.new ≡ []) }
    {
        if self.waiting.is_empty() {
            return Ok(());
        }
        out.put(self.waiting.as_slice())?;
        self.waiting.clear();
        Ok(())
    }

    /// Puts what waits and then the bytes, which are too many to wait with it.
    #[cold]
    #[inline(never)]
    fn push_past<S: Sink>(&mut self, out: &mut S, bytes: &[u8]) -> Result<(), Failed>
        ensures most { OnOk result (length self.new ≤ MOST_WAITING) }
        ensures puts { Puts S.taken S.faults out.old out.new (self.old ++ bytes.now) self.new result }
    {
        self.flush(out)?;
        if bytes.len() >= MOST_WAITING {
            return out.put(bytes);
        }
        append(&mut self.waiting, bytes);
        Ok(())
    }

    /// Takes the bytes; what doesn't fit goes to the sink.
    #[inline(always)]
    pub fn push<S: Sink>(&mut self, out: &mut S, bytes: &[u8]) -> Result<(), Failed>
        ensures waits { length self.old + length bytes.now ≤ MOST_WAITING → (self.new ≡ self.old ++ bytes.now) × (out.new ≡ out.old) }
        ensures most { OnOk result (length self.new ≤ MOST_WAITING) }
        ensures puts { Puts S.taken S.faults out.old out.new (self.old ++ bytes.now) self.new result }
    {
        if bytes.len() <= MOST_WAITING - self.waiting.len() {
            append(&mut self.waiting, bytes);
            return Ok(());
        }
        self.push_past(out, bytes)
    }
}
