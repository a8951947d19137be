//! The blocks of many files at one turn: files are taken apart from the last one on, and put together again.
ghost use Rattle.std.specs.Prelude.{◌≡◌, ◌+◌, ◌≤◌, ◌++◌, [], All, List, IfOk, OnOk, vec_len, length};
ghost use Rattle.std.specs.VecDeque.{deque_len};
ghost use Rattle.block_pool.specs.Handles.{AreOfPool, BlockValue, Follows, SameTally};
ghost use Rattle.block_pool.specs.Weighing.{Weighs};
ghost use Rattle.dia_file.specs.Files.{FileValue, file_value};
ghost use Rattle.dia_file.specs.Frames.{blocks_of};
ghost use Rattle.dia_file.specs.declared.file.File.TheInside.{Inside};
ghost use Rattle.dia_file.specs.declared.weigh.Mark.{Mark};
ghost use Rattle.dia_file.specs.Weighing.{IsApart, IsStack, marks_of};

use crate::file::File;
use crate::sealed::Sealed;
use block_pool::{BlockRef, Hand};
use dia_edge::{Disk, NoMemory};
use dia_item::Kinds;
use std::alloc::Global;
use std::collections::VecDeque;
use std::snapshot::Snapshot;
use std::sync::Wait;

/// How many rows end in a block, and how many bytes it has.
#[derive(Drop)]
pub(crate) struct Mark {
    pub(crate) ends: usize,
    pub(crate) len: usize,
}

/// A file without its blocks, and how many it had.
#[derive(Drop)]
pub(crate) struct Shell {
    pub(crate) kinds: Kinds,
    pub(crate) rows: u64,
    pub(crate) bytes: u64,
    pub(crate) count: usize,
}

/// Puts the blocks and their marks behind those that are there.
fn strip(
    sealed: VecDeque<Sealed>,
    blocks: &mut Vec<BlockRef>,
    marks: &mut Vec<Mark>,
) -> Result<(), NoMemory>
    ensures blocks { OnOk result (blocks.new.items ≡ blocks.old.items ++ blocks_of sealed.items) }
    ensures marks { OnOk result (marks.new.items ≡ marks.old.items ++ marks_of sealed.items) }
{
    let mut sealed = sealed;
    while let Some(front) = sealed.pop_front() {
        let Sealed { block, ends, len } = front;
        blocks.push(block)?;
        marks.push(Mark { ends, len })?;
    }
    Ok(())
}

/// The last blocks with their marks, so many.
fn refill(
    alloc: Global,
    count: usize,
    blocks: &mut Vec<BlockRef>,
    marks: &mut Vec<Mark>,
) -> Result<VecDeque<Sealed>, NoMemory>
    requires blocks { count ≤ vec_len blocks.old }
    requires marks { count ≤ vec_len marks.old }
    ensures blocks { IfOk result (λ sealed. blocks.new.items ++ blocks_of sealed.items ≡ blocks.old.items) }
    ensures marks { IfOk result (λ sealed. marks.new.items ++ marks_of sealed.items ≡ marks.old.items) }
    ensures count { IfOk result (λ sealed. length sealed.items ≡ count) }
{
    let mut sealed = VecDeque::with_capacity(alloc, count)?;
    while sealed.len() < count {
        let Some(block) = blocks.pop() else {
            unreachable!()
        };
        let Some(mark) = marks.pop() else {
            unreachable!()
        };
        let Mark { ends, len } = mark;
        sealed.push_front_reserved(Sealed { block, ends, len });
    }
    Ok(sealed)
}

/// Takes a file apart.
fn take_apart(
    file: File,
    blocks: &mut Vec<BlockRef>,
    marks: &mut Vec<Mark>,
) -> Result<Shell, NoMemory>
    ensures { IfOk result (λ shell. IsApart file shell blocks.old.items marks.old.items blocks.new.items marks.new.items) }
{
    let File {
        kinds,
        rows,
        bytes,
        sealed,
    } = file;
    let count = sealed.len();
    strip(sealed, blocks, marks)?;
    Ok(Shell {
        kinds,
        rows,
        bytes,
        count,
    })
}

/// Puts the file together whose blocks are the last ones.
fn put_together(
    alloc: Global,
    shell: Shell,
    blocks: &mut Vec<BlockRef>,
    marks: &mut Vec<Mark>,
) -> Result<File, NoMemory>
    requires apart { (file : FileValue) × (bs : List BlockValue) × (ms : List Mark) × IsApart file shell bs ms blocks.old.items marks.old.items }
    ensures { IfOk result (λ file. (was : FileValue) (bs : List BlockValue) (ms : List Mark) → IsApart was shell bs ms blocks.old.items marks.old.items → (file ≡ was) × (blocks.new.items ≡ bs) × (marks.new.items ≡ ms)) }
{
    let Shell {
        kinds,
        rows,
        bytes,
        count,
    } = shell;
    let sealed = refill(alloc, count, blocks, marks)?;
    Ok(File {
        kinds,
        rows,
        bytes,
        sealed,
    })
}

/// Takes files apart, from the last one on.
fn take_all_apart(
    files: Vec<File>,
    blocks: &mut Vec<BlockRef>,
    marks: &mut Vec<Mark>,
) -> Result<Vec<Shell>, NoMemory>
    requires empty { (blocks.old.items ≡ []) × (marks.old.items ≡ []) }
    ensures { IfOk result (λ shells. IsStack [] files.items shells.items blocks.new.items marks.new.items) }
{
    let mut shells = Vec::with_capacity(*files.allocator(), files.len())?;
    let mut files = files;
    while let Some(file) = files.pop() {
        let shell = take_apart(file, blocks, marks)?;
        shells.push(shell)?;
    }
    Ok(shells)
}

/// Puts the files together that were taken apart.
fn put_all_together(
    alloc: Global,
    shells: Vec<Shell>,
    blocks: &mut Vec<BlockRef>,
    marks: &mut Vec<Mark>,
    apart: Snapshot<Vec<File>>,
) -> Result<Vec<File>, NoMemory>
    requires apart { IsStack [] apart.value.items shells.items blocks.old.items marks.old.items }
    ensures { IfOk result (λ files. files.items ≡ apart.value.items) }
{
    let _ = apart;
    let mut files = Vec::with_capacity(alloc, shells.len())?;
    let mut shells = shells;
    while let Some(shell) = shells.pop() {
        let file = put_together(alloc, shell, blocks, marks)?;
        files.push(file)?;
    }
    Ok(files)
}

impl File {
    ghost use Rattle.dia_file.specs.Cuts.{bytes_of_files};
    ghost use Rattle.dia_file.specs.Files.{IsFileOf};

    /// Bounds the writes of the disk from below, as `Hand::weigh` does, by the bytes of all these files.
    ///
    /// It gives back the same files in the same order. After want of memory their blocks stay in the pool until it ends.
    pub fn weigh<R: Wait, D: Disk>(
        files: Vec<File>,
        rt: &R,
        hand: &mut Hand<'_, D>,
    ) -> Result<Vec<File>, NoMemory>
        requires own { All (λ file. IsFileOf hand.old.pool file) files.items }
        ensures files { IfOk result (λ back. back.items ≡ files.items) }
        ensures weighs { IfOk result (λ _. Weighs hand.old.pool.opening hand.new.notes (bytes_of_files files.items)) }
        ensures permits { hand.new.permits ≡ hand.old.permits }
        ensures tally { SameTally hand.old.notes hand.new.notes }
        ensures follows { Follows hand.old hand.new }
    {
        let alloc = *files.allocator();
        let apart = Snapshot::of(&files);
        let mut blocks = Vec::new(alloc);
        let mut marks = Vec::new(alloc);
        let shells = take_all_apart(files, &mut blocks, &mut marks)?;
        let mut blocks = hand.weigh(rt, alloc, blocks)?;
        put_all_together(alloc, shells, &mut blocks, &mut marks, apart)
    }
}
