//! Reads a row at the beginning of bytes.
ghost use Rattle.std.specs.Prelude.{◌≡◌, ◌≤◌, ℕ, IfSome, IfNone, take, length};
ghost use Rattle.row_defs.specs.Rows.{Row, IsRow};
ghost use Rattle.dia_item.specs.KindList.{kind_list};
ghost use Rattle.dia_item.specs.Lent.{row_in_ref};

use crate::kinds::Kinds;
use crate::read::row_len;
use crate::row_ref::RowRef;

/// The row that the bytes begin with, and how many bytes it has. There is at most one, and None where there is none:
/// where the bytes end too early, or a text is longer than 65,536 bytes.
#[inline]
pub fn read_row<'a>(kinds: &Kinds, bytes: &'a [u8]) -> Option<(RowRef<'a>, usize)>
    ensures len { IfSome result (λ found. found.1 ≤ length bytes.now) }
    ensures found { IfSome result (λ found. IsRow (kind_list kinds.now) (take found.1 bytes.now) (row_in_ref found.0)) }
    ensures only { IfSome result (λ found. (row : Row) (n : ℕ) → n ≤ length bytes.now → IsRow (kind_list kinds.now) (take n bytes.now) row
        → (row ≡ row_in_ref found.0) × (n ≡ found.1)) }
    ensures none { IfNone result ((row : Row) (n : ℕ) → IsRow (kind_list kinds.now) (take n bytes.now) row → ⊥) }
{
    let Some(n) = row_len(kinds.list(), bytes) else {
        return None;
    };
    let (prefix, _) = bytes.split_at(n);
    Some((
        RowRef {
            kinds: *kinds,
            bytes: prefix,
        },
        n,
    ))
}

/// The row that these bytes are, where it is known that they are one: they aren't read again.
#[inline]
pub fn known_row<'a>(kinds: &Kinds, bytes: &'a [u8]) -> RowRef<'a>
    requires { (row : Row) × IsRow (kind_list kinds.now) bytes.now row }
    ensures { (row : Row) → IsRow (kind_list kinds.now) bytes.entry.now row → row_in_ref result ≡ row }
{
    RowRef {
        kinds: *kinds,
        bytes,
    }
}
