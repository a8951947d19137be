//! The order of rows.
ghost use Rattle.std.specs.Prelude.{◌≡◌, ◌≤◌, true, length, take};
ghost use Rattle.row_defs.specs.Rows.{kinds_of, key_of, cell_cmp, row_cmp};
ghost use Rattle.dia_item.specs.Reading.{row_of, has_row};
ghost use Rattle.dia_item.specs.Fields.{cell_of};
ghost use Rattle.dia_item.specs.Lent.{row_in_ref};

use crate::field::Field;
use crate::read::split_field;
use crate::row_ref::{RowRef, known};
use row_defs::Kind;
use std::cmp::Ordering;

#[inline]
fn compare_cells(a: Field<'_>, b: Field<'_>) -> Ordering
    ensures { result ≡ cell_cmp (cell_of a.entry) (cell_of b.entry) }
{
    match (a, b) {
        (Field::Int(m), Field::Int(n)) => m.cmp(&n),
        (Field::Text(s), Field::Text(t)) => s.cmp(t),
        (Field::Int(_), Field::Text(_)) => Ordering::Less,
        (Field::Text(_), Field::Int(_)) => Ordering::Greater,
    }
}

/// The order of the rows of these kinds at the beginning of `a` and of `b`.
fn compare_fields(kinds: &[Kind], a: &[u8], b: &[u8]) -> Ordering
    requires a { has_row kinds.now a.now ≡ true }
    requires b { has_row kinds.now b.now ≡ true }
    ensures { result ≡ row_cmp (row_of kinds.now a.now) (row_of kinds.now b.now) }
{
    let Some((kind, others)) = kinds.split_first() else {
        return Ordering::Equal;
    };
    let (a_field, a_rest) = split_field(*kind, a);
    let (b_field, b_rest) = split_field(*kind, b);
    match compare_cells(a_field, b_field) {
        Ordering::Equal => compare_fields(others, a_rest, b_rest),
        decided => decided,
    }
}

/// The order of the first `k` columns, of which the first that differs decides: numbers by size, texts by their
/// bytes, a proper prefix first. Both rows are gone through once.
pub fn compare(a: RowRef<'_>, b: RowRef<'_>, k: usize) -> Ordering
    requires columns { k ≤ length (row_in_ref a) }
    requires kinds { take k (kinds_of (row_in_ref a)) ≡ take k (kinds_of (row_in_ref b)) }
    ensures { result ≡ row_cmp (key_of k (row_in_ref a.entry)) (key_of k (row_in_ref b.entry)) }
{
    let kinds = a.kinds.list();
    known(kinds, a.bytes);
    known(b.kinds.list(), b.bytes);
    let (key, _) = kinds.split_at(k);
    compare_fields(key, a.bytes, b.bytes)
}
