//! Fields and rows at the beginning of bytes.
ghost use Rattle.std.specs.Prelude.{◌≡◌, ◌≤◌, ◌+◌, ◌++◌, ◌∷◌, [], true, ℕ, List, IfSome, IfNone, take, drop, length};
ghost use Rattle.row_defs.specs.Rows.{Cell, Row, IsField, IsRow, Fits};
ghost use Rattle.dia_item.specs.Reading.{u32_of, u64_of, cell_len, cell_at, row_of, has_field};
ghost use Rattle.dia_item.specs.Fields.{cell_of};

use crate::field::Field;
use row_defs::Kind;
use row_defs::limits::LONGEST_TEXT;

#[inline]
#[tactic(auto, unfolding(crate::specs::Reading::u32_of))]
fn u32_at_prefix(bytes: &[u8]) -> u32
    requires { 4 ≤ length bytes.now }
    ensures { result ≡ u32_of bytes.now }
{
    u32::from_le_bytes([bytes[0], bytes[1], bytes[2], bytes[3]])
}

#[inline]
#[tactic(auto, unfolding(crate::specs::Reading::u64_of))]
fn u64_at_prefix(bytes: &[u8]) -> u64
    requires { 8 ≤ length bytes.now }
    ensures { result ≡ u64_of bytes.now }
{
    u64::from_le_bytes([
        bytes[0], bytes[1], bytes[2], bytes[3], bytes[4], bytes[5], bytes[6], bytes[7],
    ])
}

/// How many bytes the field at the beginning has; None where the bytes begin with no field of this kind.
#[inline]
fn field_len(kind: Kind, bytes: &[u8]) -> Option<usize>
    ensures len { IfSome result (λ n. (n ≤ length bytes.now) × (n ≡ cell_len kind bytes.now)) }
    ensures found { IfSome result (λ n. IsField kind (take n bytes.now) (cell_at kind bytes.now)) }
    ensures none { IfNone result ((cell : Cell) (n : ℕ) → IsField kind (take n bytes.now) cell → ⊥) }
{
    match kind {
        Kind::Int => {
            if bytes.len() < 8 {
                return None;
            }
            Some(8)
        }
        Kind::Text => {
            if bytes.len() < 4 {
                return None;
            }
            let n = u32_at_prefix(bytes) as usize;
            if n > LONGEST_TEXT || bytes.len() - 4 < n {
                return None;
            }
            Some(4 + n)
        }
    }
}

/// How many bytes the row at the beginning has; None where the bytes begin with no row of these kinds. A row of one column,
/// as a line is, takes the short way.
#[inline]
pub(crate) fn row_len(kinds: &[Kind], bytes: &[u8]) -> Option<usize>
    ensures len { IfSome result (λ n. n ≤ length bytes.now) }
    ensures found { IfSome result (λ n. IsRow kinds.now (take n bytes.now) (row_of kinds.now bytes.now)) }
    ensures none { IfNone result ((row : Row) (n : ℕ) → IsRow kinds.now (take n bytes.now) row → ⊥) }
{
    match kinds {
        [kind] => field_len(*kind, bytes),
        _ => fields_len(kinds, bytes),
    }
}

/// The same for any number of columns.
fn fields_len(kinds: &[Kind], bytes: &[u8]) -> Option<usize>
    ensures len { IfSome result (λ n. n ≤ length bytes.now) }
    ensures found { IfSome result (λ n. IsRow kinds.now (take n bytes.now) (row_of kinds.now bytes.now)) }
    ensures none { IfNone result ((row : Row) (n : ℕ) → IsRow kinds.now (take n bytes.now) row → ⊥) }
{
    match kinds.split_first() {
        None => Some(0),
        Some((kind, rest)) => {
            let Some(first) = field_len(*kind, bytes) else {
                return None;
            };
            let (_, after) = bytes.split_at(first);
            let Some(more) = fields_len(rest, after) else {
                return None;
            };
            Some(first + more)
        }
    }
}

/// The field at the beginning, and the bytes behind it.
#[inline]
pub(crate) fn split_field(kind: Kind, bytes: &[u8]) -> (Field<'_>, &[u8])
    requires { has_field kind bytes.now ≡ true }
    ensures value { cell_of result.0 ≡ cell_at kind bytes.now }
    ensures fits { Fits (cell_of result.0) }
    ensures rest { result.1.now ≡ drop (cell_len kind bytes.now) bytes.now }
{
    match kind {
        Kind::Int => {
            let (_, rest) = bytes.split_at(8);
            (Field::Int(u64_at_prefix(bytes)), rest)
        }
        Kind::Text => {
            let n = u32_at_prefix(bytes) as usize;
            let (_, after) = bytes.split_at(4);
            let (text, rest) = after.split_at(n);
            (Field::Text(text), rest)
        }
    }
}
