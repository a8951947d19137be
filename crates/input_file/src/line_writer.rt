//! What writes the lines of an input to a file.
ghost use Rattle.row_defs.specs.declared.kind.Kind.TheVariants.{Text};
ghost use Rattle.row_defs.specs.Limits.{most_rows};

use block_pool::{FrameErr, Hand, Pool};
use dia_edge::Disk;
use dia_file::{FileWriter, PushErr};
use dia_item::{Kind, Kinds};
use dia_lines::LineTaker;
use row_defs::limits::MOST_ROWS;
use std::alloc::Global;
use std::marker::PhantomData;
use std::sync::Wait;

/// Writes each line as a row of one text. Its desk is the hand of the file's pool.
#[derive(Drop)]
pub(crate) struct LineWriter<'p, D: Disk> {
    pub(crate) writer: FileWriter,
    of: PhantomData<&'p Pool<D>>,
}

impl<'p, D: Disk> LineWriter<'p, D> {
    ghost use Rattle.std.specs.Prelude.{◌≡◌, ◌∷◌, [], false, None};

    /// Nothing is written yet, and it takes no memory.
    pub(crate) fn new(alloc: Global) -> LineWriter<'p, D>
        ensures kinds { result.writer.kinds ≡ Text ∷ [] }
        ensures limit { result.writer.limit ≡ most_rows }
        ensures rows { result.writer.rows ≡ [] }
        ensures blocks { result.writer.blocks ≡ [] }
        ensures frame { result.writer.frame ≡ None }
        ensures unbroken { result.writer.is_broken ≡ false }
    {
        LineWriter {
            writer: FileWriter::new(alloc, Kinds::one(Kind::Text), MOST_ROWS),
            of: PhantomData,
        }
    }

    /// What was written.
    pub(crate) fn into_writer(self) -> FileWriter
        ensures { result ≡ self.entry.writer }
    {
        let LineWriter { writer, of: _ } = self;
        writer
    }
}

impl<'p, D: Disk> LineTaker for LineWriter<'p, D> {
    ghost use Rattle.std.specs.Prelude.{length};
    ghost use Rattle.block_pool.specs.Handles.{Follows, RefusesFrame};
    ghost use Rattle.block_pool.specs.Follows.{follows_refl, follows_trans};
    ghost use Rattle.dia_file.proofs.Spreading.{fault_from};
    ghost use Rattle.input_file.specs.Writing.{Wrote, IsServed, KeepsFile, wrote_none, wrote_more, keeps_none, keeps_more};

    type Desk = Hand<'p, D>;

    type Refusal = FrameErr;

    ghost took = { λ s lines t. Wrote s.writer lines t.writer };

    ghost count = { λ s. length s.writer.rows };

    ghost serves = { λ s d. IsServed s.writer d };

    ghost follows = { λ a b. Follows a b };

    ghost keeps = { λ s a t b. KeepsFile s.writer a t.writer b };

    ghost refused = { λ s a line e t b. RefusesFrame a.notes b.notes e };

    fn take<R: Wait>(
        &mut self,
        rt: &R,
        hand: &mut Hand<'p, D>,
        prefix: &[u8],
        rest: &[u8],
    ) -> Result<(), FrameErr> {
        match self.writer.push_text(rt, hand, prefix, rest) {
            Ok(()) => Ok(()),
            Err(PushErr::Disk { count }) => Err(FrameErr::Disk { count }),
            Err(PushErr::NoMemory) => Err(FrameErr::NoMemory),
            Err(PushErr::TooManyRows { .. }) => unreachable!(),
        }
    }

    ghost took_none = { λ s. wrote_none s.writer };

    ghost took_more = { λ a b c xs ys p q. wrote_more a.writer b.writer c.writer xs ys p q };

    ghost follows_refl = { λ d. follows_refl d };

    ghost follows_trans = { λ a b c p q. follows_trans a b c p q };

    ghost keeps_refl = { λ s d. keeps_none s.writer d };

    ghost keeps_trans = { λ s t u a b c p q. keeps_more s.writer t.writer u.writer a b c p q };

    ghost refused_from = { λ s t a b c line e p q. fault_from e a b c p q };
}
