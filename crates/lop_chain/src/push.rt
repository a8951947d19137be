//! Pushes a row through local lines, down the list of them: each line pushes what it makes through the lines behind it.
ghost use Rattle.std.specs.Prelude.{◌≡◌, ◌≤◌, ◌<◌, ◌∷◌, false, length, slice_get, Some, OnOk, IfErr};
ghost use Rattle.row_defs.specs.declared.kind.Kind.TheVariants.{Int, Text};
ghost use Rattle.row_defs.specs.Rows.{kinds_of};
ghost use Rattle.row_defs.specs.LocalOps.{map_op, words_op, spread_op, rows_through, AreSoundOps};
ghost use Rattle.dia_item.specs.Lent.{row_in_ref};
ghost use Rattle.lop_chain.specs.Rows.{Kinds};
ghost use Rattle.lop_chain.specs.Calls.{TookRows, TookSome};
ghost use Rattle.lop_chain.specs.Columns.{columns_in};
ghost use Rattle.lop_chain.specs.Steps.{step_in, steps_in, buffers_needed};

use crate::columns::{Columns, put_values};
use crate::make::{number_at, put_with, text_at};
use crate::sink::RowSink;
use crate::step::Step;
use dia_expr::split_word;
use dia_item::{Field, RowBuf, RowRef};
use std::sync::Wait;

/// Pushes a row through all lines of a chain into a sink. Each line that makes rows has a buffer for the one that is
/// under way. Most chains begin with a map, and its row is made where it is called.
#[inline(always)]
pub(crate) fn push_through_all<R: Wait, S: RowSink>(
    rt: &R,
    steps: &[Step],
    buffers: &mut [RowBuf],
    row: &RowRef<'_>,
    desk: &mut S::Desk,
    sink: &mut S,
) -> Result<(), S::Refusal>
    requires buffers { buffers_needed steps.now ≤ length buffers.old }
    requires fits { (to : Kinds) × AreSoundOps (kinds_of (row_in_ref row.now)) (steps_in steps.now) to × S.accepts sink.old to }
    requires serves { S.serves sink.old desk.old }
    requires is_open { S.is_shut sink.old ≡ false }
    ensures ok { OnOk result
        (TookRows S.RowSink sink.old desk.old (rows_through (steps_in steps.now) (row_in_ref row.now)) sink.new desk.new) }
    ensures err { IfErr result (λ e.
        TookSome S.RowSink sink.old desk.old (rows_through (steps_in steps.now) (row_in_ref row.now)) e sink.new desk.new) }
    ensures follows { S.follows desk.old desk.new }
    ensures stays { S.stays sink.old sink.new }
{
    match steps.split_first() {
        Some((Step::Map(columns), rest)) => push_map(rt, columns, rest, buffers, row, desk, sink),
        _ => push_through(rt, steps, buffers, row, desk, sink),
    }
}

/// The same of lines that are left.
#[inline(always)]
#[cycle(push)]
fn push_through<R: Wait, S: RowSink>(
    rt: &R,
    steps: &[Step],
    buffers: &mut [RowBuf],
    row: &RowRef<'_>,
    desk: &mut S::Desk,
    sink: &mut S,
) -> Result<(), S::Refusal>
    requires buffers { buffers_needed steps.now ≤ length buffers.old }
    requires fits { (to : Kinds) × AreSoundOps (kinds_of (row_in_ref row.now)) (steps_in steps.now) to × S.accepts sink.old to }
    requires serves { S.serves sink.old desk.old }
    requires is_open { S.is_shut sink.old ≡ false }
    ensures ok { OnOk result
        (TookRows S.RowSink sink.old desk.old (rows_through (steps_in steps.now) (row_in_ref row.now)) sink.new desk.new) }
    ensures err { IfErr result (λ e.
        TookSome S.RowSink sink.old desk.old (rows_through (steps_in steps.now) (row_in_ref row.now)) e sink.new desk.new) }
    ensures follows { S.follows desk.old desk.new }
    ensures stays { S.stays sink.old sink.new }
{
    match steps.split_first() {
        None => sink.take(rt, desk, *row),
        Some((step, rest)) => push_step(rt, step, rest, buffers, row, desk, sink),
    }
}

/// Pushes a row through a line and those behind it.
#[inline(never)]
#[cycle(push)]
fn push_step<R: Wait, S: RowSink>(
    rt: &R,
    step: &Step,
    rest: &[Step],
    buffers: &mut [RowBuf],
    row: &RowRef<'_>,
    desk: &mut S::Desk,
    sink: &mut S,
) -> Result<(), S::Refusal>
    requires buffers { buffers_needed (step.now ∷ rest.now) ≤ length buffers.old }
    requires fits { (to : Kinds) × AreSoundOps (kinds_of (row_in_ref row.now)) (step_in step.now ∷ steps_in rest.now) to × S.accepts sink.old to }
    requires serves { S.serves sink.old desk.old }
    requires is_open { S.is_shut sink.old ≡ false }
    ensures ok { OnOk result
        (TookRows S.RowSink sink.old desk.old (rows_through (step_in step.now ∷ steps_in rest.now) (row_in_ref row.now)) sink.new desk.new) }
    ensures err { IfErr result (λ e.
        TookSome S.RowSink sink.old desk.old (rows_through (step_in step.now ∷ steps_in rest.now) (row_in_ref row.now)) e sink.new desk.new) }
    ensures follows { S.follows desk.old desk.new }
    ensures stays { S.stays sink.old sink.new }
{
    match step {
        Step::Filter(formula) => {
            if formula.value(row) == 0 {
                return Ok(());
            }
            push_through(rt, rest, buffers, row, desk, sink)
        }
        Step::Map(columns) => push_map(rt, columns, rest, buffers, row, desk, sink),
        Step::Words { column } => match buffers.split_first_mut() {
            Some((buffer, buffers)) => {
                push_words(rt, rest, buffer, buffers, row, *column, desk, sink)
            }
            None => unreachable!(),
        },
        Step::Spread { column, count } => match buffers.split_first_mut() {
            Some((buffer, buffers)) => {
                push_spread(rt, rest, buffer, buffers, row, *column, *count, desk, sink)
            }
            None => unreachable!(),
        },
    }
}

/// Pushes the row that a map makes.
#[inline(always)]
#[cycle(push)]
fn push_map<R: Wait, S: RowSink>(
    rt: &R,
    columns: &Columns,
    rest: &[Step],
    buffers: &mut [RowBuf],
    row: &RowRef<'_>,
    desk: &mut S::Desk,
    sink: &mut S,
) -> Result<(), S::Refusal>
    requires buffers { buffers_needed rest.now < length buffers.old }
    requires fits { (to : Kinds) × AreSoundOps (kinds_of (row_in_ref row.now)) (map_op (columns_in columns.now) ∷ steps_in rest.now) to × S.accepts sink.old to }
    requires serves { S.serves sink.old desk.old }
    requires is_open { S.is_shut sink.old ≡ false }
    ensures ok { OnOk result
        (TookRows S.RowSink sink.old desk.old (rows_through (map_op (columns_in columns.now) ∷ steps_in rest.now) (row_in_ref row.now)) sink.new desk.new) }
    ensures err { IfErr result (λ e.
        TookSome S.RowSink sink.old desk.old (rows_through (map_op (columns_in columns.now) ∷ steps_in rest.now) (row_in_ref row.now)) e sink.new desk.new) }
    ensures follows { S.follows desk.old desk.new }
    ensures stays { S.stays sink.old sink.new }
{
    let Some((buffer, buffers)) = buffers.split_first_mut() else {
        unreachable!()
    };
    put_values(columns, row, buffer);
    push_through(rt, rest, buffers, &buffer.row(), desk, sink)
}

/// Pushes the rows with each word of a text, one after the other.
#[inline(never)]
#[cycle(push)]
fn push_words<R: Wait, S: RowSink>(
    rt: &R,
    steps: &[Step],
    buffer: &mut RowBuf,
    buffers: &mut [RowBuf],
    row: &RowRef<'_>,
    column: u32,
    desk: &mut S::Desk,
    sink: &mut S,
) -> Result<(), S::Refusal>
    requires buffers { buffers_needed steps.now ≤ length buffers.old }
    requires column { slice_get (kinds_of (row_in_ref row.now)) column ≡ Some Text }
    requires fits { (to : Kinds) × AreSoundOps (kinds_of (row_in_ref row.now)) (steps_in steps.now) to × S.accepts sink.old to }
    requires serves { S.serves sink.old desk.old }
    requires is_open { S.is_shut sink.old ≡ false }
    ensures ok { OnOk result (TookRows S.RowSink sink.old desk.old
        (rows_through (words_op column ∷ steps_in steps.now) (row_in_ref row.now)) sink.new desk.new) }
    ensures err { IfErr result (λ e. TookSome S.RowSink sink.old desk.old
        (rows_through (words_op column ∷ steps_in steps.now) (row_in_ref row.now)) e sink.new desk.new) }
    ensures follows { S.follows desk.old desk.new }
    ensures stays { S.stays sink.old sink.new }
{
    let mut rest = text_at(row, column as usize);
    while let Some((word, after)) = split_word(rest) {
        let made = put_with(row, column as usize, Field::Text(word), buffer);
        match push_through(rt, steps, buffers, &made, desk, sink) {
            Ok(()) => {}
            Err(refusal) => return Err(refusal),
        }
        rest = after;
    }
    Ok(())
}

/// Pushes the rows with 0, 1 and so on added to a number, one after the other.
#[inline(never)]
#[cycle(push)]
fn push_spread<R: Wait, S: RowSink>(
    rt: &R,
    steps: &[Step],
    buffer: &mut RowBuf,
    buffers: &mut [RowBuf],
    row: &RowRef<'_>,
    column: u32,
    count: u32,
    desk: &mut S::Desk,
    sink: &mut S,
) -> Result<(), S::Refusal>
    requires buffers { buffers_needed steps.now ≤ length buffers.old }
    requires column { slice_get (kinds_of (row_in_ref row.now)) column ≡ Some Int }
    requires fits { (to : Kinds) × AreSoundOps (kinds_of (row_in_ref row.now)) (steps_in steps.now) to × S.accepts sink.old to }
    requires serves { S.serves sink.old desk.old }
    requires is_open { S.is_shut sink.old ≡ false }
    ensures ok { OnOk result (TookRows S.RowSink sink.old desk.old
        (rows_through (spread_op column count ∷ steps_in steps.now) (row_in_ref row.now)) sink.new desk.new) }
    ensures err { IfErr result (λ e. TookSome S.RowSink sink.old desk.old
        (rows_through (spread_op column count ∷ steps_in steps.now) (row_in_ref row.now)) e sink.new desk.new) }
    ensures follows { S.follows desk.old desk.new }
    ensures stays { S.stays sink.old sink.new }
{
    let first = number_at(row, column as usize);
    for i in 0..count {
        let number = first.wrapping_add(u64::from(i));
        let made = put_with(row, column as usize, Field::Int(number), buffer);
        match push_through(rt, steps, buffers, &made, desk, sink) {
            Ok(()) => {}
            Err(refused) => return Err(refused),
        }
    }
    Ok(())
}
