//! Worked rows.
ghost use Rattle.std.specs.Prelude.{◌≡◌, ◌∷◌, [], ◌≤◌, length};
ghost use Rattle.row_defs.specs.Rows.{int, text};
ghost use Rattle.row_defs.specs.Limits.{longest_text};

use dia_item::{Field, Kind, Kinds, OwnRow, RowBuf, RowRef, compare, read_row};
use row_defs::limits::LONGEST_TEXT;
use std::alloc::{AllocError, Global};
use std::cmp::Ordering;
use std::test::Fail;

const A_AND_2: [u8; 13] = [1, 0, 0, 0, b'a', 2, 0, 0, 0, 0, 0, 0, 0];

fn holds(row: RowRef<'_>, fields: &[Field<'_>]) -> bool {
    if row.columns() != fields.len() {
        return false;
    }
    for (i, field) in fields.iter().enumerate() {
        if row.field(i) != *field {
            return false;
        }
    }
    true
}

fn fill(buffer: &mut RowBuf, t: &[u8], n: u64)
    requires { length t.now ≤ longest_text }
    ensures { buffer.new ≡ text t.now ∷ int n ∷ [] }
{
    buffer.clear();
    buffer.push_text(t);
    buffer.push_int(n);
}

fn with_zeros(alloc: Global, prefix: &[u8]) -> Result<Vec<u8>, AllocError> {
    let mut bytes = Vec::from_slice(alloc, prefix)?;
    bytes.resize(2 * LONGEST_TEXT, 0)?;
    Ok(bytes)
}

#[test]
fn bytes_are_read_as_rows(rt: HostRuntime) -> Result<(), Fail> {
    let cases: [(&[Kind], &[u8], &[Field<'_>], usize); 4] = [
        (
            &[Kind::Text, Kind::Int],
            &A_AND_2,
            &[Field::Text(b"a"), Field::Int(2)],
            13,
        ),
        (&[Kind::Text], &A_AND_2, &[Field::Text(b"a")], 5),
        (&[Kind::Text], &[0, 0, 0, 0], &[Field::Text(b"")], 4),
        (
            &[Kind::Int],
            &[255; 8],
            &[Field::Int(18_446_744_073_709_551_615)],
            8,
        ),
    ];
    for (kinds, bytes, fields, len) in cases {
        let kinds = Kinds::new(kinds).ok_or("kinds")?;
        let (row, read) = read_row(&kinds, bytes).ok_or("no row")?;
        assert_eq!(rt; read, len);
        assert!(rt; holds(row, fields));
        assert_eq!(rt; row.bytes().len(), len);
    }
    Ok(())
}

#[test]
fn bytes_that_end_early_or_hold_a_long_text_are_no_row(rt: HostRuntime) -> Result<(), Fail> {
    let kinds = Kinds::one(Kind::Text).and(Kind::Int);
    assert!(rt; read_row(&kinds, &A_AND_2[..12]).is_none());

    let text = Kinds::one(Kind::Text);
    for (length, is_row) in [([0, 0, 1, 0], true), ([1, 0, 1, 0], false)] {
        let bytes = with_zeros(rt.alloc(), &length)?;
        assert_eq!(rt; read_row(&text, bytes.as_slice()).is_some(), is_row);
    }
    Ok(())
}

#[test]
fn the_first_column_that_differs_decides(rt: HostRuntime) -> Result<(), Fail> {
    let mut left = RowBuf::new(rt.alloc())?;
    let mut right = RowBuf::new(rt.alloc())?;
    let cases: [(&[u8], u64, &[u8], u64, usize, Ordering); 6] = [
        (b"a", 2, b"ab", 1, 2, Ordering::Less),
        (b"ab", 2, b"b", 1, 2, Ordering::Less),
        (b"b", 0, b"ab", 1, 1, Ordering::Greater),
        (b"a", 2, b"a", 10, 2, Ordering::Less),
        (b"a", 2, b"a", 10, 1, Ordering::Equal),
        (b"a", 256, b"a", 255, 2, Ordering::Greater),
    ];
    for (left_text, left_number, right_text, right_number, k, order) in cases {
        assert!(rt; left_text.len() < 3 && right_text.len() < 3 && k < 3);
        fill(&mut left, left_text, left_number);
        fill(&mut right, right_text, right_number);
        assert!(rt; compare(left.row(), right.row(), k) == order);
    }
    Ok(())
}

#[test]
fn rows_are_built_copied_and_owned(rt: HostRuntime) -> Result<(), Fail> {
    let mut built = RowBuf::new(rt.alloc())?;
    fill(&mut built, b"a", 2);
    assert_eq!(rt; built.row().bytes(), A_AND_2.as_slice());

    let mut copied = RowBuf::new(rt.alloc())?;
    fill(&mut copied, b"what was there", 1);
    copied.copy(built.row());
    assert_eq!(rt; copied.row().bytes(), A_AND_2.as_slice());
    copied.push_int(3);
    assert!(rt;
        holds(
            copied.row(),
            &[Field::Text(b"a"), Field::Int(2), Field::Int(3)]
        )
    );

    let owned = OwnRow::of(rt.alloc(), built.row())?;
    assert_eq!(rt; owned.row().bytes(), A_AND_2.as_slice());
    Ok(())
}
