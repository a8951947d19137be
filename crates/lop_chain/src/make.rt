//! Rows that are a row with another field.
ghost use Rattle.std.specs.Prelude.{◌≡◌, ◌≤◌, ◌<◌, ◌++◌, ◌∷◌, [], length, slice_get, slice_set, Some};
ghost use Rattle.row_defs.specs.declared.kind.Kind.TheVariants.{Int, Text};
ghost use Rattle.row_defs.specs.Rows.{kinds_of, Fits};
ghost use Rattle.row_defs.specs.Limits.{longest_text};
ghost use Rattle.row_defs.specs.Values.{column as column_of, value_of, number_in, bytes_in};
ghost use Rattle.dia_item.specs.Fields.{cell_of};
ghost use Rattle.dia_item.specs.Lent.{row_in_ref};

use dia_item::{Field, RowBuf, RowRef};

#[inline]
fn push_field(field: Field<'_>, into: &mut RowBuf)
    requires room { length into.old < 6 }
    requires fits { Fits (cell_of field) }
    ensures { into.new ≡ into.old ++ cell_of field.entry ∷ [] }
{
    match field {
        Field::Int(n) => into.push_int(n),
        Field::Text(t) => into.push_text(t),
    }
}

#[inline(always)]
fn set_field(field: Field<'_>, into: &mut RowBuf)
    requires { Fits (cell_of field) }
    ensures { into.new ≡ cell_of field.entry ∷ [] }
{
    match field {
        Field::Int(n) => into.set_int(n),
        Field::Text(t) => into.set_text(t),
    }
}

/// The row with another field in a column, in place of what the buffer held.
#[inline(always)]
pub(crate) fn put_with<'b>(
    row: &RowRef<'_>,
    column: usize,
    field: Field<'_>,
    into: &'b mut RowBuf,
) -> RowRef<'b>
    requires column { column < length (row_in_ref row.now) }
    requires fits { Fits (cell_of field) }
    ensures { row_in_ref result ≡ slice_set (row_in_ref row.now) column (cell_of field.entry) }
{
    if row.columns() == 1 {
        set_field(field, into);
        return into.row();
    }
    put_columns(row, column, field, into);
    into.row()
}

/// The same column by column.
#[inline(never)]
fn put_columns(row: &RowRef<'_>, column: usize, field: Field<'_>, into: &mut RowBuf)
    requires column { column < length (row_in_ref row.now) }
    requires fits { Fits (cell_of field) }
    ensures row { into.new ≡ slice_set (row_in_ref row.now) column (cell_of field.entry) }
    ensures some { 0 < length into.new }
{
    into.clear();
    for i in 0..row.columns() {
        let next = if i == column { field } else { row.field(i) };
        push_field(next, into);
    }
}

/// The number in a column.
pub(crate) fn number_at(row: &RowRef<'_>, column: usize) -> u64
    requires { slice_get (kinds_of (row_in_ref row.now)) column ≡ Some Int }
    ensures { result ≡ number_in (value_of (column_of column) (row_in_ref row.now)) }
{
    match row.field(column) {
        Field::Int(n) => n,
        Field::Text(_) => unreachable!(),
    }
}

/// The bytes of the text in a column.
pub(crate) fn text_at<'a>(row: &RowRef<'a>, column: usize) -> &'a [u8]
    requires { slice_get (kinds_of (row_in_ref row.now)) column ≡ Some Text }
    ensures bytes { result.now ≡ bytes_in (value_of (column_of column) (row_in_ref row.now)) }
    ensures short { length result.now ≤ longest_text }
{
    match row.field(column) {
        Field::Int(_) => unreachable!(),
        Field::Text(t) => t,
    }
}
