//! Counts rows.
ghost use Rattle.std.specs.Prelude.{◌≡◌, ◌+◌, ◌≤◌, length, true, false, OnOk, OnErr, ⊤};
ghost use Rattle.std.proofs.Common.{arith, length-append};
ghost use Rattle.row_defs.specs.Limits.{most_rows};
ghost use Rattle.block_pool.specs.Handles.{Follows};
ghost use Rattle.block_pool.specs.Follows.{follows_refl, follows_trans};

use block_pool::Hand;
use dia_edge::Disk;
use dia_item::RowRef;
use lop_chain::RowSink;
use row_defs::limits::MOST_ROWS;
use std::marker::PhantomData;
use std::sync::Wait;

/// More rows come than may arrive at an action.
#[derive(Clone, Copy, Debug, PartialEq, Eq, Drop)]
pub struct TooManyRows;

/// Counts the rows that it takes: as many as may arrive at an action. It refuses the next one.
#[derive(Drop)]
pub struct Counter<'p, D> {
    /// How many rows were taken.
    pub rows: u64,
    /// Whether a row was refused.
    pub shut: bool,
    of: PhantomData<(&'p (), D)>,
    ghost few: { rows ≤ most_rows },
}

impl<'p, D: Disk> Counter<'p, D> {
    /// No rows yet.
    pub fn new() -> Counter<'p, D>
        ensures none { result.rows ≡ 0 }
        ensures is_open { result.shut ≡ false }
    {
        Counter {
            rows: 0,
            shut: false,
            of: PhantomData,
        }
    }

    /// One more row, where it isn't too many.
    #[inline]
    pub(crate) fn add(&mut self) -> Result<(), TooManyRows>
        ensures counted { OnOk result (self.new.rows ≡ self.old.rows + 1) }
        ensures is_open { OnOk result (self.new.shut ≡ self.old.shut) }
        ensures full { OnErr result (self.old.rows ≡ most_rows) }
        ensures shut { OnErr result (self.new.shut ≡ true) }
    {
        if self.rows >= MOST_ROWS {
            self.shut = true;
            return Err(TooManyRows);
        }
        self.rows += 1;
        Ok(())
    }
}

impl<'p, D: Disk + 'p> RowSink for Counter<'p, D> {
    type Desk = Hand<'p, D>;

    type Refusal = TooManyRows;

    ghost took = { λ s rows t. t.rows ≡ s.rows + length rows };

    ghost accepts = { λ s kinds. ⊤ };

    ghost serves = { λ s d. ⊤ };

    ghost is_shut = { λ s. s.shut };

    ghost held = { λ s d. d.permits };

    ghost follows = { λ a b. Follows a b };

    ghost refused = { λ s a row e t b. s.rows ≡ most_rows };

    ghost stays = { λ s t. ⊤ };

    #[inline]
    fn take<R: Wait>(
        &mut self,
        _rt: &R,
        _desk: &mut Hand<'p, D>,
        _row: RowRef<'_>,
    ) -> Result<(), TooManyRows> {
        self.add()
    }

    ghost took_none = { λ s. Prim.omega arith };

    ghost took_more = { λ a b c xs ys p q. Prim.omega (arith, p, q, length-append xs ys) };

    ghost follows_refl = { λ d. follows_refl d };

    ghost follows_trans = { λ a b c p q. follows_trans a b c p q };

    ghost stays_refl = { λ s. tt };

    ghost stays_trans = { λ a b c p q. tt };

    ghost refused_from = { λ s t a b c row e p q. q };
}
