//! Rows that are built.
ghost use Rattle.std.specs.Prelude.{◌≡◌, ◌≤◌, ◌<◌, ◌+◌, ◌++◌, ◌∷◌, [], IfOk, length, vec_len, vec_capacity};
ghost use Rattle.dia_item.specs.KindList.{kind_list, kinds_in};
ghost use Rattle.dia_item.specs.Lent.{row_in_ref};
ghost use Rattle.row_defs.specs.Rows.{int, text, bytes_of_u64, bytes_of_u32};
ghost use Rattle.row_defs.specs.Limits.{longest_text};

use crate::appending::append;
use crate::kinds::Kinds;
use crate::row_ref::RowRef;
use dia_edge::NoMemory;
use row_defs::Kind;
use row_defs::limits::{LONGEST_TEXT, MOST_COLUMNS};
use std::alloc::Global;
use std::marker::Model;

/// How many bytes the longest row has: of texts alone, each with the 4 bytes of its length.
pub const LONGEST_ROW: usize = MOST_COLUMNS * (4 + LONGEST_TEXT);

/// A row that is built column by column, in room that was had at its making: no later call takes memory.
#[derive(Drop)]
pub struct RowBuf {
    kinds: Option<Kinds>,
    bytes: Vec<u8>,
}

impl Model for RowBuf {
    ghost use Rattle.row_defs.specs.Rows.{Row};

    ghost Value = { Row };

    ghost use Rattle.dia_item.specs.Room.{row_in, HasRoom};

    ghost view = { row_in };

    ghost invariant = { HasRoom };
}

#[inline]
fn push_kind(kinds: &mut Option<Kinds>, kind: Kind)
    requires { length (kinds_in kinds.old) < MOST_COLUMNS }
    ensures { kinds_in kinds.new ≡ kinds_in kinds.old ++ kind ∷ [] }
{
    match kinds {
        None => *kinds = Some(Kinds::one(kind)),
        Some(kinds) => kinds.push(kind),
    }
}

// The kind of an only column. What is there already isn't written again, so that `row` needn't wait for it.
#[inline]
fn set_kind(kinds: &mut Option<Kinds>, kind: Kind)
    ensures { kinds_in kinds.new ≡ kind ∷ [] }
{
    match kinds {
        Some(kinds) if kinds.is_one(kind) => {}
        _ => *kinds = Some(Kinds::one(kind)),
    }
}

#[inline]
#[tactic(auto, unfolding(row_defs::specs::Rows::bytes_of_u64))]
fn append_u64(bytes: &mut Vec<u8>, v: u64)
    requires { vec_len bytes.old + 8 ≤ vec_capacity bytes.old }
    ensures items { bytes.new.items ≡ bytes.old.items ++ bytes_of_u64 v }
    ensures capacity { vec_capacity bytes.old ≤ vec_capacity bytes.new }
{
    append(bytes, &v.to_le_bytes());
}

#[inline]
#[tactic(auto, unfolding(row_defs::specs::Rows::bytes_of_u32))]
fn append_u32(bytes: &mut Vec<u8>, v: u32)
    requires { vec_len bytes.old + 4 ≤ vec_capacity bytes.old }
    ensures items { bytes.new.items ≡ bytes.old.items ++ bytes_of_u32 v }
    ensures len { vec_len bytes.new ≡ vec_len bytes.old + 4 }
    ensures capacity { vec_capacity bytes.old ≤ vec_capacity bytes.new }
{
    append(bytes, &v.to_le_bytes());
}

impl RowBuf {
    /// A buffer with no columns, and room for the largest row.
    pub fn new(alloc: Global) -> Result<RowBuf, NoMemory>
        ensures { IfOk result (λ buffer. buffer ≡ []) }
    {
        Ok(RowBuf {
            kinds: None,
            bytes: Vec::with_capacity(alloc, LONGEST_ROW)?,
        })
    }

    /// Takes all columns away.
    pub fn clear(&mut self)
        ensures { self.new ≡ [] }
    {
        self.kinds = None;
        self.bytes.clear();
    }

    /// One more column, a number.
    pub fn push_int(&mut self, v: u64)
        requires { length self.old < MOST_COLUMNS }
        ensures { self.new ≡ self.old ++ int v ∷ [] }
    {
        push_kind(&mut self.kinds, Kind::Int);
        append_u64(&mut self.bytes, v);
    }

    /// One more column, a text.
    pub fn push_text(&mut self, t: &[u8])
        requires columns { length self.old < MOST_COLUMNS }
        requires short { length t.now ≤ longest_text }
        ensures { self.new ≡ self.old ++ text t.now ∷ [] }
    {
        push_kind(&mut self.kinds, Kind::Text);
        append_u32(&mut self.bytes, t.len() as u32);
        append(&mut self.bytes, t);
    }

    /// One column, a number, in place of those that were there.
    #[inline]
    pub fn set_int(&mut self, v: u64)
        ensures { self.new ≡ int v ∷ [] }
    {
        set_kind(&mut self.kinds, Kind::Int);
        self.bytes.clear();
        append_u64(&mut self.bytes, v);
    }

    /// One column, a text, in place of those that were there.
    #[inline]
    pub fn set_text(&mut self, t: &[u8])
        requires { length t.now ≤ longest_text }
        ensures { self.new ≡ text t.now ∷ [] }
    {
        set_kind(&mut self.kinds, Kind::Text);
        self.bytes.clear();
        append_u32(&mut self.bytes, t.len() as u32);
        append(&mut self.bytes, t);
    }

    /// The columns of a row, in place of those that were there.
    pub fn copy(&mut self, row: RowRef<'_>)
        ensures { self.new ≡ row_in_ref row.entry }
    {
        let bytes = row.bytes();
        self.kinds = Some(row.kinds());
        self.bytes.clear();
        append(&mut self.bytes, bytes);
    }

    /// The row of the columns so far.
    #[inline]
    pub fn row(&self) -> RowRef<'_>
        requires { 0 < length self.now }
        ensures { row_in_ref result ≡ self.now }
    {
        match &self.kinds {
            None => unreachable!(),
            Some(kinds) => RowRef {
                kinds: *kinds,
                bytes: self.bytes.as_slice(),
            },
        }
    }
}
