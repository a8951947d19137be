//! Finished files.
ghost use Rattle.std.specs.Prelude.{◌≡◌, ◌≤◌, length, vec_len, vec_capacity};
ghost use Rattle.dia_item.specs.KindList.{kind_list};
ghost use Rattle.block_pool.specs.Handles.{Follows};
ghost use Rattle.dia_file.specs.Encoding.{encoded, AllFit};
ghost use Rattle.dia_file.specs.Tallies.{Frees};

use crate::consume::ConsumeReader;
use crate::keep::KeepReader;
use crate::place::{After, Place};
use crate::sealed::{Sealed, blocks_in, free_all};
use block_pool::{BlockRef, Hand};
use dia_edge::Disk;
use dia_item::Kinds;
use std::collections::VecDeque;
use std::marker::Model;
use std::sync::Wait;

/// A list of rows in blocks of the pool, with their kinds. Contracts see the kinds, the rows and the blocks.
///
/// The blocks' bytes, joined, are the encoded rows, and no block is empty. One that is dropped leaves its blocks in the
/// pool until that ends: `clear` frees them.
#[derive(Drop)]
pub struct File {
    pub(crate) kinds: Kinds,
    pub(crate) rows: u64,
    pub(crate) bytes: u64,
    pub(crate) sealed: VecDeque<Sealed>,
}

impl Model for File {
    ghost use Rattle.dia_file.specs.Files.{FileValue, file_value, IsFile};

    ghost Value = { FileValue };

    ghost view = { file_value };

    ghost invariant = { IsFile };
}

impl File {
    ghost use Rattle.dia_file.specs.Files.{IsFileOf, joined_blocks, AreFilled};

    /// How many rows there are, each of which fits. It takes constant time, as do `bytes`, `blocks` and `kinds`.
    pub fn rows(&self) -> u64
        ensures len { result ≡ length self.now.rows }
        ensures fit { AllFit self.now.rows }
    {
        self.rows
    }

    /// The sum of the rows' encoded lengths, in bytes.
    pub fn bytes(&self) -> u64
        ensures { result ≡ length (encoded self.now.rows) }
    {
        self.bytes
    }

    /// How many blocks there are. None is empty, and joined they are the encoded rows.
    pub fn blocks(&self) -> u64
        ensures len { result ≡ length self.now.blocks }
        ensures joined { joined_blocks self.now.blocks ≡ encoded self.now.rows }
        ensures filled { AreFilled self.now.blocks }
    {
        self.sealed.len() as u64
    }

    /// The rows' kinds.
    pub fn kinds(&self) -> Kinds
        ensures { kind_list result ≡ self.now.kinds }
    {
        self.kinds
    }

    /// A reader at the first row, which owns the file until its `end` gives it back.
    pub fn keep(self) -> KeepReader
        ensures file { result.file ≡ self }
        ensures left { result.left ≡ self.rows }
        ensures pinned { result.pinned ≡ 0 }
    {
        let File {
            kinds,
            rows,
            bytes,
            sealed,
        } = self;
        KeepReader {
            kinds,
            rows,
            bytes,
            place: Place::before_all(sealed, After::Keep),
            at: 0,
            here: 0,
            kept: 0,
        }
    }

    /// A reader at the first row, which frees each block once its last row was read whole.
    pub fn consume(self) -> ConsumeReader
        ensures kinds { result.kinds ≡ self.kinds }
        ensures left { result.left ≡ self.rows }
        ensures blocks { result.blocks ≡ self.blocks }
        ensures pinned { result.pinned ≡ 0 }
    {
        let File {
            kinds,
            rows: _,
            bytes: _,
            sealed,
        } = self;
        ConsumeReader {
            kinds,
            place: Place::before_all(sealed, After::Free),
            at: 0,
            here: 0,
            kept: 0,
        }
    }

    /// The blocks, in order: none is empty, and joined they are the encoded rows. The room is empty, and large enough for
    /// all of them.
    pub fn into_blocks(self, room: Vec<BlockRef>) -> Vec<BlockRef>
        requires room { (vec_len room ≡ 0) × (length self.blocks ≤ vec_capacity room) }
        ensures { result.items ≡ self.blocks }
    {
        let File {
            kinds: _,
            rows: _,
            bytes: _,
            sealed,
        } = self;
        blocks_in(sealed, room)
    }

    /// Frees all blocks, and no other. It has no refusal.
    pub fn clear<R: Wait, D: Disk>(self, rt: &R, hand: &mut Hand<'_, D>)
        requires own { IsFileOf hand.old.pool self }
        ensures permits { hand.new.permits ≡ hand.old.permits }
        ensures gone { Frees (length self.blocks) 0 hand.old.notes hand.new.notes }
        ensures follows { Follows hand.old hand.new }
    {
        let File {
            kinds: _,
            rows: _,
            bytes: _,
            sealed,
        } = self;
        let mut sealed = sealed;
        free_all(rt, hand, &mut sealed);
    }
}
