//! Files that are written.
ghost use Rattle.std.specs.Prelude.{◌≡◌, ◌+◌, ◌<◌, ◌≤◌, ◌^◌, ◌++◌, ◌∷◌, [], true, false, ℕ, List, length, None, Some, Err, IfOk, OnOk, OnErr, IfErr, IfSome, ◌↔◌};
ghost use Rattle.row_defs.specs.declared.kind.Kind.TheVariants.{Text};
ghost use Rattle.row_defs.specs.Limits.{longest_text, most_rows};
ghost use Rattle.row_defs.specs.Pieces.{line_row};
ghost use Rattle.row_defs.specs.Rows.{Row, IsRow, kinds_of};
ghost use Rattle.dia_item.specs.KindList.{kind_list};
ghost use Rattle.dia_item.specs.Lent.{row_in_ref};
ghost use Rattle.dia_item.specs.Sizes.{longest_row};
ghost use Rattle.block_pool.specs.Handles.{Follows, SameTally};
ghost use Rattle.dia_file.specs.Frames.{frame_bytes, frames, IsFrameIn, sealed_of, Spread};
ghost use Rattle.dia_file.specs.Parts.{bytes_of};
ghost use Rattle.dia_file.specs.Tallies.{Frees, Makes};
ghost use Rattle.dia_file.specs.declared.refusals.PushErr.TheVariants.{TooManyRows};

use crate::file::File;
use crate::refusals::PushErr;
use crate::sealed::{Parts, Sealed, free_all, put_row, seal_frame};
use block_pool::{Frame, Hand};
use dia_edge::{Disk, NoMemory};
use dia_item::{Kinds, RowRef};
use std::alloc::Global;
use std::collections::VecDeque;
use std::marker::Model;
use std::sync::Wait;

/// Writes a file, one row after the other. Contracts see the kinds, the limit, the rows, the blocks, the frame that is
/// written, and whether the writer is broken.
///
/// A row that fits the frame that is written goes there; else the frame is sealed, and the row goes into new ones from
/// their start. So where a row ends in a block, nothing is left open at the block's end.
#[derive(Drop)]
pub struct FileWriter {
    kinds: Kinds,
    limit: u64,
    rows: u64,
    bytes: u64,
    sealed: VecDeque<Sealed>,
    frame: Option<Frame>,
    ends: usize,
    broken: bool,
}

impl Model for FileWriter {
    ghost use Rattle.dia_file.specs.Writers.{WriterValue, writer_value, IsWriter};

    ghost Value = { WriterValue };

    ghost view = { writer_value };

    ghost invariant = { IsWriter };
}

impl FileWriter {
    ghost use Rattle.dia_file.specs.Writers.{IsWriterOf, frames_of, RefusesPush};
    ghost use Rattle.dia_file.specs.Files.{IsFileOf};

    /// A writer with no rows, of rows of these kinds, at most `limit` of them. It takes no memory yet.
    pub fn new(alloc: Global, kinds: Kinds, limit: u64) -> FileWriter
        requires { limit ≤ most_rows }
        ensures kinds { result.kinds ≡ kind_list kinds }
        ensures limit { result.limit ≡ limit }
        ensures rows { result.rows ≡ [] }
        ensures blocks { result.blocks ≡ [] }
        ensures frame { result.frame ≡ None }
        ensures unbroken { result.is_broken ≡ false }
    {
        // That there are some kinds, and no more than a row may have, is said of their list alone.
        let _list = kinds.list();
        FileWriter {
            kinds,
            limit,
            rows: 0,
            bytes: 0,
            sealed: VecDeque::new(alloc),
            frame: None,
            ends: 0,
            broken: false,
        }
    }

    /// Whether a push answered `Disk` or `NoMemory`: then only `cancel` may be called.
    pub fn broken(&self) -> bool
        ensures { result ≡ self.now.is_broken }
    {
        self.broken
    }

    /// One more row at the end: one copy of its bytes.
    ///
    /// `TooManyRows` comes exactly where `limit` rows are there, before anything is done. `Disk` comes only where the disk
    /// failed in this call, and `NoMemory` where there was none for a block: then the writer is broken. After each refusal
    /// the rows are as before.
    #[inline]
    pub fn push<R: Wait, D: Disk>(
        &mut self,
        rt: &R,
        hand: &mut Hand<'_, D>,
        row: RowRef<'_>,
    ) -> Result<(), PushErr>
        requires kinds { kinds_of (row_in_ref row) ≡ self.old.kinds }
        requires unbroken { self.old.is_broken ≡ false }
        requires permit { 0 < hand.old.permits + frames_of self.old }
        requires own { IsWriterOf hand.old.pool self.old }
        ensures ok { OnOk result (self.new.rows ≡ self.old.rows ++ row_in_ref row.entry ∷ []) }
        ensures err { OnErr result (self.new.rows ≡ self.old.rows) }
        ensures unbroken { OnOk result (self.new.is_broken ≡ false) }
        ensures refused { IfErr result (λ e. RefusesPush e self.old hand.old self.new hand.new) }
        ensures full { length self.old.rows ≡ self.old.limit → result ≡ Err (TooManyRows self.old.limit) }
        ensures kinds { self.new.kinds ≡ self.old.kinds }
        ensures limit { self.new.limit ≡ self.old.limit }
        ensures own { IsWriterOf hand.new.pool self.new }
        ensures permits { hand.new.permits + frames_of self.new ≡ hand.old.permits + frames_of self.old }
        ensures made { Makes (length self.old.blocks) (length self.new.blocks) hand.old.notes hand.new.notes }
        ensures follows { Follows hand.old hand.new }
    {
        let bytes = row.bytes();
        let parts = Parts {
            head: &[],
            prefix: &[],
            rest: bytes,
        };
        self.push_parts(rt, hand, parts)
    }

    /// One more row at the end, of the one text that is `prefix` and then `rest`: one copy of its bytes. The refusals are
    /// those of `push`.
    #[inline]
    #[tactic(auto, unfolding(row_defs::specs::Rows::bytes_of_u32))]
    pub fn push_text<R: Wait, D: Disk>(
        &mut self,
        rt: &R,
        hand: &mut Hand<'_, D>,
        prefix: &[u8],
        rest: &[u8],
    ) -> Result<(), PushErr>
        requires kinds { self.old.kinds ≡ Text ∷ [] }
        requires text { length prefix.now + length rest.now ≤ longest_text }
        requires unbroken { self.old.is_broken ≡ false }
        requires permit { 0 < hand.old.permits + frames_of self.old }
        requires own { IsWriterOf hand.old.pool self.old }
        ensures ok { OnOk result (self.new.rows ≡ self.old.rows ++ line_row (prefix.now ++ rest.now) ∷ []) }
        ensures err { OnErr result (self.new.rows ≡ self.old.rows) }
        ensures unbroken { OnOk result (self.new.is_broken ≡ false) }
        ensures refused { IfErr result (λ e. RefusesPush e self.old hand.old self.new hand.new) }
        ensures full { length self.old.rows ≡ self.old.limit → result ≡ Err (TooManyRows self.old.limit) }
        ensures kinds { self.new.kinds ≡ self.old.kinds }
        ensures limit { self.new.limit ≡ self.old.limit }
        ensures own { IsWriterOf hand.new.pool self.new }
        ensures permits { hand.new.permits + frames_of self.new ≡ hand.old.permits + frames_of self.old }
        ensures made { Makes (length self.old.blocks) (length self.new.blocks) hand.old.notes hand.new.notes }
        ensures follows { Follows hand.old hand.new }
    {
        let head = ((prefix.len() + rest.len()) as u32).to_le_bytes();
        let parts = Parts {
            head: &head,
            prefix,
            rest,
        };
        self.push_parts(rt, hand, parts)
    }

    /// One more row at the end, of these bytes.
    #[inline(always)]
    fn push_parts<R: Wait, D: Disk>(
        &mut self,
        rt: &R,
        hand: &mut Hand<'_, D>,
        parts: Parts<'_>,
    ) -> Result<(), PushErr>
        requires row { (row : Row) × IsRow self.old.kinds (bytes_of parts) row }
        requires most { length (bytes_of parts) ≤ longest_row }
        requires unbroken { self.old.is_broken ≡ false }
        requires permit { 0 < hand.old.permits + frames_of self.old }
        requires own { IsWriterOf hand.old.pool self.old }
        ensures ok { OnOk result ((row : Row) → IsRow self.old.kinds (bytes_of parts.entry) row → self.new.rows ≡ self.old.rows ++ row ∷ []) }
        ensures err { OnErr result (self.new.rows ≡ self.old.rows) }
        ensures unbroken { OnOk result (self.new.is_broken ≡ false) }
        ensures refused { IfErr result (λ e. RefusesPush e self.old hand.old self.new hand.new) }
        ensures full { length self.old.rows ≡ self.old.limit → result ≡ Err (TooManyRows self.old.limit) }
        ensures kinds { self.new.kinds ≡ self.old.kinds }
        ensures limit { self.new.limit ≡ self.old.limit }
        ensures own { IsWriterOf hand.new.pool self.new }
        ensures permits { hand.new.permits + frames_of self.new ≡ hand.old.permits + frames_of self.old }
        ensures made { Makes (length self.old.blocks) (length self.new.blocks) hand.old.notes hand.new.notes }
        ensures follows { Follows hand.old hand.new }
    {
        if self.rows == self.limit {
            return Err(PushErr::TooManyRows { limit: self.limit });
        }
        let len = parts.len();
        match put_row(
            rt,
            hand,
            &mut self.sealed,
            &mut self.frame,
            &mut self.ends,
            parts,
        ) {
            Ok(()) => {
                self.ends += 1;
                self.rows += 1;
                self.bytes += len as u64;
                Ok(())
            }
            Err(refusal) => {
                self.broken = true;
                Err(PushErr::from(refusal))
            }
        }
    }

    /// The file of the rows pushed, in order. Without memory for the last block the writer comes back as it was.
    pub fn finish<R: Wait, D: Disk>(
        self,
        rt: &R,
        hand: &mut Hand<'_, D>,
    ) -> Result<File, (FileWriter, NoMemory)>
        requires unbroken { self.is_broken ≡ false }
        requires own { IsWriterOf hand.old.pool self }
        ensures rows { IfOk result (λ f. f.rows ≡ self.rows) }
        ensures kinds { IfOk result (λ f. f.kinds ≡ self.kinds) }
        ensures own { IfOk result (λ f. IsFileOf hand.old.pool f) }
        ensures returned { IfErr result (λ e. e.0 ≡ self) }
        ensures permits { OnOk result (hand.new.permits ≡ hand.old.permits + frames_of self) }
        ensures kept { OnErr result (hand.new.permits ≡ hand.old.permits) }
        ensures made { IfOk result (λ f. Makes (length self.blocks) (length f.blocks) hand.old.notes hand.new.notes) }
        ensures same { OnErr result (SameTally hand.old.notes hand.new.notes) }
        ensures follows { Follows hand.old hand.new }
    {
        let FileWriter {
            kinds,
            limit,
            rows,
            bytes,
            sealed,
            frame,
            ends,
            broken,
        } = self;
        let mut sealed = sealed;
        let mut frame = frame;
        match seal_frame(rt, hand, &mut sealed, &mut frame, ends) {
            Ok(()) => Ok(File {
                kinds,
                rows,
                bytes,
                sealed,
            }),
            Err(refusal) => Err((
                FileWriter {
                    kinds,
                    limit,
                    rows,
                    bytes,
                    sealed,
                    frame,
                    ends,
                    broken,
                },
                refusal,
            )),
        }
    }

    /// Frees the blocks, and gives the frame back. It has no refusal.
    pub fn cancel<R: Wait, D: Disk>(self, rt: &R, hand: &mut Hand<'_, D>)
        requires own { IsWriterOf hand.old.pool self }
        ensures permits { hand.new.permits ≡ hand.old.permits + frames_of self }
        ensures gone { Frees (length self.blocks) 0 hand.old.notes hand.new.notes }
        ensures follows { Follows hand.old hand.new }
    {
        let FileWriter {
            kinds: _,
            limit: _,
            rows: _,
            bytes: _,
            sealed,
            frame,
            ends: _,
            broken: _,
        } = self;
        let mut sealed = sealed;
        free_all(rt, hand, &mut sealed);
        match frame {
            Some(frame) => hand.give_back(rt, frame),
            None => {}
        }
    }
}
