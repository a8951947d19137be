//! Sinks that refuse a row where they have had as many as they take.
ghost use Rattle.std.specs.Prelude.{◌≡◌, ◌≤◌, ◌+◌, ◌++◌, ◌∷◌, [], OnOk, OnErr, Some, refl, length, slice_get, vec_len, ⊤};
ghost use Rattle.std.proofs.Common.{arith, sym, ◌∙◌, append_assoc, append-nil, length-append, ap};
ghost use Rattle.row_defs.specs.declared.kind.Kind.TheVariants.{Int};
ghost use Rattle.row_defs.specs.Rows.{kinds_of};
ghost use Rattle.dia_item.specs.Lent.{row_in_ref};

use dia_edge::NoMemory;
use dia_item::{Field, OwnRow, RowRef};
use lop_chain::RowSink;
use std::alloc::Global;
use std::sync::Wait;

/// Why a row was refused.
#[derive(Clone, Copy, Debug, PartialEq, Eq)]
pub enum Refused {
    /// There were as many rows as may be.
    Full,
    /// Memory ran out.
    NoMemory,
}

/// The number in the first column.
fn first_number(row: &RowRef<'_>) -> u64
    requires { slice_get (kinds_of (row_in_ref row.now)) 0 ≡ Some Int }
{
    match row.field(0) {
        Field::Int(n) => n,
        Field::Text(_) => unreachable!(),
    }
}

/// Counts rows, and adds up the numbers in their first columns.
#[derive(Drop)]
pub struct Tally {
    pub rows: u64,
    pub sum: u64,
    pub most: u64,
    pub shut: bool,
}

impl RowSink for Tally {
    type Desk = ();

    type Refusal = Refused;

    ghost took = { λ s rows t. (t.rows ≡ s.rows + length rows) × (t.most ≡ s.most) };

    ghost accepts = { λ s kinds. slice_get kinds 0 ≡ Some Int };

    ghost serves = { λ s d. ⊤ };

    ghost is_shut = { λ s. s.shut };

    ghost held = { λ s d. 0 };

    ghost follows = { λ a b. ⊤ };

    ghost refused = { λ s a row e t b. (t.rows ≡ s.rows) × (s.most ≤ s.rows) };

    ghost stays = { λ s t. t.most ≡ s.most };

    fn take<R: Wait>(&mut self, _rt: &R, _desk: &mut (), row: RowRef<'_>) -> Result<(), Refused> {
        if self.rows >= self.most {
            self.shut = true;
            return Err(Refused::Full);
        }
        self.rows += 1;
        self.sum = self.sum.wrapping_add(first_number(&row));
        Ok(())
    }

    ghost took_none = { λ s. (Prim.omega arith, refl) };

    ghost took_more = { λ a b c xs ys p q. (Prim.omega (arith, p.0, q.0, length-append xs ys), q.1 ∙ p.1) };

    ghost follows_refl = { λ d. tt };

    ghost follows_trans = { λ a b c p q. tt };

    ghost stays_refl = { λ s. refl };

    ghost stays_trans = { λ a b c p q. q ∙ p };

    ghost refused_from = { λ s t a b c row e p q. q };
}

/// Keeps the rows that it takes.
#[derive(Drop)]
pub struct Keep {
    pub alloc: Global,
    pub rows: Vec<OwnRow>,
    pub most: usize,
    pub shut: bool,
}

fn append(alloc: Global, rows: &mut Vec<OwnRow>, row: RowRef<'_>) -> Result<(), NoMemory>
    ensures ok { OnOk result (rows.new.items ≡ rows.old.items ++ row_in_ref row.entry ∷ []) }
    ensures err { OnErr result (rows.new.items ≡ rows.old.items) }
{
    rows.push(OwnRow::of(alloc, row)?)?;
    Ok(())
}

impl RowSink for Keep {
    type Desk = ();

    type Refusal = Refused;

    ghost took = { λ s rows t. t.rows.items ≡ s.rows.items ++ rows };

    ghost accepts = { λ s kinds. ⊤ };

    ghost serves = { λ s d. ⊤ };

    ghost is_shut = { λ s. s.shut };

    ghost held = { λ s d. 0 };

    ghost follows = { λ a b. ⊤ };

    ghost refused = { λ s a row e t b. t.rows.items ≡ s.rows.items };

    ghost stays = { λ s t. ⊤ };

    fn take<R: Wait>(&mut self, _rt: &R, _desk: &mut (), row: RowRef<'_>) -> Result<(), Refused> {
        if self.rows.len() >= self.most {
            self.shut = true;
            return Err(Refused::Full);
        }
        match append(self.alloc, &mut self.rows, row) {
            Ok(()) => Ok(()),
            Err(NoMemory) => {
                self.shut = true;
                Err(Refused::NoMemory)
            }
        }
    }

    ghost took_none = { λ s. sym (append-nil s.rows.items) };

    ghost took_more = { λ a b c xs ys p q. q ∙ ap (λ zs. zs ++ ys) p ∙ append_assoc a.rows.items xs ys };

    ghost follows_refl = { λ d. tt };

    ghost follows_trans = { λ a b c p q. tt };

    ghost stays_refl = { λ s. tt };

    ghost stays_trans = { λ a b c p q. tt };

    ghost refused_from = { λ s t a b c row e p q. q };
}
