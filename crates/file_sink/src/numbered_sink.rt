//! The sink that writes a file of rows as they come, or with their numbers.
ghost use Rattle.std.specs.Prelude.{◌≡◌, ◌+◌, ◌<◌, ◌≤◌, ◌∷◌, ◌++◌, [], length, true, false, None, Some, IfOk, OnOk, IfErr, OnErr};
ghost use Rattle.row_defs.specs.Limits.{most_rows};
ghost use Rattle.row_defs.specs.Rows.{int, Fits, kinds_of};
ghost use Rattle.row_defs.specs.declared.kind.Kind.TheVariants as kind;
ghost use Rattle.dia_item.specs.Fields.{cell_of};
ghost use Rattle.dia_item.specs.KindList.{kind_list};
ghost use Rattle.dia_item.specs.Lent.{row_in_ref};
ghost use Rattle.block_pool.specs.Handles.{Follows};
ghost use Rattle.block_pool.specs.Follows.{follows_refl, follows_trans};
ghost use Rattle.dia_file.specs.Writers.{frames_of};
ghost use Rattle.file_sink.specs.Sinks.{IsServed, Wrote, RefusesTake, KeepsFile};
ghost use Rattle.file_sink.specs.Numbered.{IsNewSink, kinds_behind, NumbersFit, Took, RefusesNumbered, KeepsNumbered, took_none, took_more, numbers_kept, numbers_kept_more, refuses_numbered_from};

use crate::file_sink::FileSink;
use block_pool::Hand;
use dia_edge::{Disk, NoMemory};
use dia_file::PushErr;
use dia_item::{Field, Kinds, RowBuf, RowRef};
use lop_chain::RowSink;
use row_defs::Kind;
use row_defs::limits::MOST_COLUMNS;
use std::alloc::Global;
use std::marker::Model;
use std::sync::Wait;

/// A column of numbers, and these kinds behind it.
fn behind_number(kinds: &Kinds) -> Kinds
    requires { length (kind_list kinds.now) < MOST_COLUMNS }
    ensures { kind_list result ≡ kind.Int ∷ kind_list kinds.now }
{
    let mut all = Kinds::one(Kind::Int);
    for kind in kinds.list() {
        all = all.and(*kind);
    }
    all
}

/// One more column, of this field.
#[inline]
fn put_field(field: Field<'_>, into: &mut RowBuf)
    requires columns { length into.old < MOST_COLUMNS }
    requires fits { Fits (cell_of field) }
    ensures { into.new ≡ into.old ++ cell_of field.entry ∷ [] }
{
    match field {
        Field::Int(v) => into.push_int(v),
        Field::Text(t) => into.push_text(t),
    }
}

/// A number and the columns of a row, in place of those that were there.
fn put_numbered(number: u64, row: &RowRef<'_>, into: &mut RowBuf)
    requires { length (row_in_ref row.now) < MOST_COLUMNS }
    ensures { into.new ≡ int number ∷ row_in_ref row.now }
{
    into.set_int(number);
    for i in 0..row.columns() {
        put_field(row.field(i), into);
    }
}

/// The number of the next row, and room for a row with its number.
#[derive(Drop)]
struct Numbering {
    next: u64,
    buffer: RowBuf,
}

/// Takes a row behind its number.
#[inline]
fn take_numbered<'p, R: Wait, D: Disk>(
    rt: &R,
    numbering: &mut Numbering,
    sink: &mut FileSink<'p, D>,
    hand: &mut Hand<'p, D>,
    row: &RowRef<'_>,
) -> Result<(), PushErr>
    requires kinds { sink.old.writer.kinds ≡ kind.Int ∷ kinds_of (row_in_ref row.now) }
    requires fits { NumbersFit sink.old.writer (Some numbering.old.next) }
    requires serves { IsServed sink.old hand.old }
    requires is_open { sink.old.is_shut ≡ false }
    ensures took { OnOk result (Wrote sink.old.writer ((int numbering.old.next ∷ row_in_ref row.now) ∷ []) sink.new.writer) }
    ensures next { OnOk result (numbering.new.next ≡ numbering.old.next + 1) }
    ensures serves { OnOk result (IsServed sink.new hand.new) }
    ensures is_open { OnOk result (sink.new.is_shut ≡ false) }
    ensures held { OnOk result (hand.new.permits + frames_of sink.new.writer ≡ hand.old.permits + frames_of sink.old.writer) }
    ensures still { OnErr result (numbering.new.next ≡ numbering.old.next) }
    ensures shut { OnErr result (sink.new.is_shut ≡ true) }
    ensures refused { IfErr result (λ e. RefusesTake e sink.old.writer hand.old sink.new.writer hand.new) }
    ensures fits { NumbersFit sink.new.writer (Some numbering.new.next) }
    ensures follows { Follows hand.old hand.new }
    ensures stays { KeepsFile sink.old sink.new }
{
    sink.most_rows();
    put_numbered(numbering.next, row, &mut numbering.buffer);
    sink.take(rt, hand, numbering.buffer.row())?;
    numbering.next += 1;
    Ok(())
}

/// Writes the rows that it takes to a file, as they come or each behind its number. Contracts see the sink of the file and the
/// number of the next row, where rows are numbered.
///
/// Its file's sink is to be spent, by `finish` or `cancel`.
#[derive(Drop)]
pub struct NumberedSink<'p, D: Disk> {
    sink: FileSink<'p, D>,
    numbering: Option<Numbering>,
}

impl<'p, D: Disk> Model for NumberedSink<'p, D> {
    ghost use Rattle.std.specs.Option.{option_map};
    ghost use Rattle.file_sink.specs.Numbered.{NumberedValue, NumbersFit};

    ghost Value = { NumberedValue };

    ghost view = { λ s. record { sink = s.sink; next = option_map (λ n. n.next) s.numbering } };

    ghost invariant = { λ s. NumbersFit s.sink.writer (option_map (λ n. n.next) s.numbering) };
}

impl<'p, D: Disk> NumberedSink<'p, D> {
    /// A sink that writes rows of these kinds as they come, at most `limit` of them, to a file of the pool of this hand. It
    /// takes no memory yet.
    pub fn plain(alloc: Global, kinds: Kinds, limit: u64, hand: &Hand<'p, D>) -> NumberedSink<'p, D>
        requires { limit ≤ most_rows }
        ensures new { IsNewSink hand.now.pool (kind_list kinds) limit result.sink }
        ensures next { result.next ≡ None }
    {
        NumberedSink {
            sink: FileSink::new(alloc, kinds, limit, hand),
            numbering: None,
        }
    }

    /// A sink that writes rows of these kinds each behind its number, the first of which is `start`: at most `limit` of them, to
    /// a file of the pool of this hand. The numbers are a column of their own, the file's first. Room for one row is taken here,
    /// and a row that is taken later wants no more than the file does.
    pub fn numbering(
        alloc: Global,
        kinds: Kinds,
        limit: u64,
        hand: &Hand<'p, D>,
        start: u64,
    ) -> Result<NumberedSink<'p, D>, NoMemory>
        requires limit { limit ≤ most_rows }
        requires start { start ≤ most_rows }
        requires columns { length (kind_list kinds) < MOST_COLUMNS }
        ensures new { IfOk result (λ s. IsNewSink hand.now.pool (kind.Int ∷ kind_list kinds) limit s.sink) }
        ensures next { IfOk result (λ s. s.next ≡ Some start) }
    {
        let buffer = RowBuf::new(alloc)?;
        Ok(NumberedSink {
            sink: FileSink::new(alloc, behind_number(&kinds), limit, hand),
            numbering: Some(Numbering {
                next: start,
                buffer,
            }),
        })
    }

    /// The sink of the file, to be ended.
    pub fn into_file(self) -> FileSink<'p, D>
        ensures { result ≡ self.entry.sink }
    {
        self.sink
    }
}

impl<'p, D: Disk> RowSink for NumberedSink<'p, D> {
    type Desk = Hand<'p, D>;

    type Refusal = PushErr;

    ghost took = { Took };

    ghost accepts = { λ s kinds. s.sink.writer.kinds ≡ kinds_behind s.next kinds };

    ghost serves = { λ s d. IsServed s.sink d };

    ghost is_shut = { λ s. s.sink.is_shut };

    ghost held = { λ s d. d.permits + frames_of s.sink.writer };

    ghost follows = { Follows };

    ghost refused = { λ s a row e t b. RefusesNumbered e s a t b };

    ghost stays = { KeepsNumbered };

    #[inline]
    fn take<R: Wait>(
        &mut self,
        rt: &R,
        hand: &mut Hand<'p, D>,
        row: RowRef<'_>,
    ) -> Result<(), PushErr> {
        match &mut self.numbering {
            None => self.sink.take(rt, hand, row),
            Some(numbering) => take_numbered(rt, numbering, &mut self.sink, hand, &row),
        }
    }

    ghost took_none = { took_none };

    ghost took_more = { took_more };

    ghost follows_refl = { follows_refl };

    ghost follows_trans = { follows_trans };

    ghost stays_refl = { numbers_kept };

    ghost stays_trans = { numbers_kept_more };

    ghost refused_from = { λ s t a b c row e p q. refuses_numbered_from e s t a b c p q };
}
