//! The text of a row.
ghost use Rattle.std.specs.Prelude.{◌++◌, drop};
ghost use Rattle.row_defs.specs.Rows.{int};
ghost use Rattle.row_defs.specs.Printed.{cell_text, row_text};
ghost use Rattle.dia_edge.specs.Sinks.{Puts};
ghost use Rattle.dia_item.specs.Fields.{cell_of};
ghost use Rattle.dia_item.specs.Lent.{row_in_ref};
ghost use Rattle.text_out.specs.Columns.{next_text, nexts_text};

use crate::out_buffer::OutBuffer;
use dia_edge::{Failed, Sink};
use dia_item::{Field, RowRef};

/// A number in decimal.
#[inline(never)]
fn push_int<S: Sink>(buffer: &mut OutBuffer, out: &mut S, v: u64) -> Result<(), Failed>
    ensures puts { Puts S.taken S.faults out.old out.new (buffer.old ++ (cell_text (int v))) buffer.new result }
{
    let mut digits = itoa::Buffer::new();
    buffer.push(out, digits.format(v).as_bytes())
}

/// A number in decimal, a text as its bytes.
#[inline]
pub fn push_field<S: Sink>(
    buffer: &mut OutBuffer,
    out: &mut S,
    field: Field<'_>,
) -> Result<(), Failed>
    ensures puts { Puts S.taken S.faults out.old out.new (buffer.old ++ (cell_text (cell_of field.entry))) buffer.new result }
{
    match field {
        Field::Int(v) => push_int(buffer, out, v),
        Field::Text(t) => buffer.push(out, t),
    }
}

/// TAB, and then a field.
#[inline]
fn push_next<S: Sink>(buffer: &mut OutBuffer, out: &mut S, field: Field<'_>) -> Result<(), Failed>
    ensures puts { Puts S.taken S.faults out.old out.new (buffer.old ++ (next_text (cell_of field.entry))) buffer.new result }
{
    buffer.push(out, b"\t")?;
    push_field(buffer, out, field)
}

/// The columns behind the first, each behind a TAB.
fn push_nexts<S: Sink>(buffer: &mut OutBuffer, out: &mut S, row: &RowRef<'_>) -> Result<(), Failed>
    ensures puts { Puts S.taken S.faults out.old out.new (buffer.old ++ (nexts_text (drop 1 (row_in_ref row.now)))) buffer.new result }
{
    for i in 1..row.columns() {
        push_next(buffer, out, row.field(i))?;
    }
    Ok(())
}

/// The columns joined by TAB, and LF.
pub fn push_row<S: Sink>(
    buffer: &mut OutBuffer,
    out: &mut S,
    row: &RowRef<'_>,
) -> Result<(), Failed>
    ensures puts { Puts S.taken S.faults out.old out.new (buffer.old ++ (row_text (row_in_ref row.now))) buffer.new result }
{
    let _columns = row.columns();
    push_field(buffer, out, row.field(0))?;
    push_nexts(buffer, out, row)?;
    buffer.push(out, b"\n")
}
