//! Rows that own their bytes.
ghost use Rattle.std.specs.Prelude.{◌≡◌, IfOk};

use crate::kinds::Kinds;
use crate::row_ref::RowRef;
use dia_edge::NoMemory;
use std::alloc::Global;
use std::marker::Model;

/// A row with bytes of its own, as many as it has.
#[derive(Drop)]
pub struct OwnRow {
    kinds: Kinds,
    bytes: Vec<u8>,
}

impl Model for OwnRow {
    ghost use Rattle.std.specs.Prelude.{◌≡◌, true};
    ghost use Rattle.row_defs.specs.Rows.{Row};
    ghost use Rattle.dia_item.specs.Reading.{is_row, row_of};
    ghost use Rattle.dia_item.specs.KindList.{kind_list};

    ghost Value = { Row };

    ghost view = { λ r. row_of (kind_list r.kinds) r.bytes.items };

    ghost invariant = { λ r. is_row (kind_list r.kinds) r.bytes.items ≡ true };
}

impl OwnRow {
    ghost use Rattle.std.specs.Prelude.{◌≡◌, IfOk};
    ghost use Rattle.dia_item.specs.Lent.{row_in_ref};

    /// A copy of a row.
    pub fn of(alloc: Global, row: RowRef<'_>) -> Result<OwnRow, NoMemory>
        ensures { IfOk result (λ copy. copy ≡ row_in_ref row.entry) }
    {
        Ok(OwnRow {
            kinds: row.kinds,
            bytes: Vec::from_slice(alloc, row.bytes)?,
        })
    }

    /// The row.
    #[inline]
    pub fn row(&self) -> RowRef<'_>
        ensures { row_in_ref result ≡ self.now }
    {
        RowRef {
            kinds: self.kinds,
            bytes: self.bytes.as_slice(),
        }
    }
}
