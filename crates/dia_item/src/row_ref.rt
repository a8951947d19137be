//! Rows that are borrowed.
ghost use Rattle.std.specs.Prelude.{◌≡◌, ◌≤◌, ◌<◌, true, Some, length, drop, slice_get};
ghost use Rattle.row_defs.specs.Rows.{IsRow, kinds_of, Fits};
ghost use Rattle.dia_item.specs.Reading.{row_of, is_row, has_row};
ghost use Rattle.dia_item.specs.Sizes.{longest_row};
ghost use Rattle.dia_item.specs.Fields.{cell_of};
ghost use Rattle.dia_item.specs.KindList.{kind_list};

use crate::field::Field;
use crate::kinds::Kinds;
use crate::read::split_field;
use row_defs::Kind;
use row_defs::limits::MOST_COLUMNS;

/// A row by its bytes, which belong to someone else. Contracts see the list of its cells, `row_in_ref`.
#[derive(Clone, Copy)]
pub struct RowRef<'a> {
    pub(crate) kinds: Kinds,
    pub(crate) bytes: &'a [u8],
    ghost is_row: { is_row (kind_list kinds) bytes.now ≡ true },
}

/// The bytes from column `i` on.
#[inline]
fn from_column<'a>(kinds: &[Kind], bytes: &'a [u8], i: usize) -> &'a [u8]
    requires is { has_row kinds.now bytes.now ≡ true }
    requires within { i ≤ length kinds.now }
    ensures has { has_row (drop i kinds.now) result.now ≡ true }
    ensures row { row_of (drop i kinds.now) result.now ≡ drop i (row_of kinds.now bytes.now) }
{
    let mut rest = bytes;
    for kind in &kinds[..i] {
        let (_, after) = split_field(*kind, rest);
        rest = after;
    }
    rest
}

/// Field `i` of the row at the beginning.
#[inline]
fn field_at<'a>(kinds: &[Kind], bytes: &'a [u8], i: usize) -> Field<'a>
    requires is { has_row kinds.now bytes.now ≡ true }
    requires within { i < length kinds.now }
    ensures value { slice_get (row_of kinds.now bytes.now) i ≡ Some (cell_of result) }
    ensures fits { Fits (cell_of result) }
{
    let (field, _) = split_field(kinds[i], from_column(kinds, bytes, i));
    field
}

// What the test that a `RowRef` keeps says of its bytes.
#[inline]
pub(crate) fn known(kinds: &[Kind], bytes: &[u8])
    requires is { is_row kinds.now bytes.now ≡ true }
    requires most { length kinds.now ≤ MOST_COLUMNS }
    ensures row { IsRow kinds.now bytes.now (row_of kinds.now bytes.now) }
    ensures kinds { kinds_of (row_of kinds.now bytes.now) ≡ kinds.now }
    ensures columns { length (row_of kinds.now bytes.now) ≡ length kinds.now }
    ensures has { has_row kinds.now bytes.now ≡ true }
    ensures longest { length bytes.now ≤ longest_row }
{}

impl<'a> RowRef<'a> {
    ghost use Rattle.std.specs.Prelude.{◌≡◌, ◌≤◌, ◌<◌, Some, length, slice_get};
    ghost use Rattle.row_defs.specs.Rows.{IsRow, kinds_of, Fits};
    ghost use Rattle.dia_item.specs.Fields.{cell_of};
    ghost use Rattle.dia_item.specs.Sizes.{longest_row};
    ghost use Rattle.dia_item.specs.KindList.{kind_list};
    ghost use Rattle.dia_item.specs.Lent.{row_in_ref};

    /// The bytes of the row, no more and no less.
    #[inline]
    pub fn bytes(&self) -> &'a [u8]
        ensures row { IsRow (kinds_of (row_in_ref self.now)) result.now (row_in_ref self.now) }
        ensures longest { length result.now ≤ longest_row }
    {
        known(self.kinds.list(), self.bytes);
        self.bytes
    }

    /// The kinds of the columns.
    #[inline]
    pub fn kinds(&self) -> Kinds
        ensures { kind_list result ≡ kinds_of (row_in_ref self.now) }
    {
        known(self.kinds.list(), self.bytes);
        self.kinds
    }

    /// How many columns the row has: one to six.
    #[inline]
    pub fn columns(&self) -> usize
        ensures len { result ≡ length (row_in_ref self.now) }
        ensures some { 0 < result }
        ensures most { result ≤ MOST_COLUMNS }
    {
        let kinds = self.kinds.list();
        known(kinds, self.bytes);
        kinds.len()
    }

    /// Column `i`, counted from 0.
    #[inline(always)]
    pub fn field(&self, i: usize) -> Field<'a>
        requires { i < length (row_in_ref self.now) }
        ensures value { slice_get (row_in_ref self.now) i ≡ Some (cell_of result) }
        ensures fits { Fits (cell_of result) }
    {
        let kinds = self.kinds.list();
        known(kinds, self.bytes);
        field_at(kinds, self.bytes, i)
    }
}
