//! Adds up a column.
ghost use Rattle.std.specs.Prelude.{◌≡◌, ◌+◌, ◌^◌, ◌<◌, length, false, slice_get, Some, ⊤, refl};
ghost use Rattle.std.proofs.Common.{arith, length-append, ◌∙◌};
ghost use Rattle.row_defs.specs.declared.kind.Kind.TheVariants.{Int};
ghost use Rattle.row_defs.specs.Limits.{most_rows};
ghost use Rattle.block_pool.specs.Handles.{Follows};
ghost use Rattle.block_pool.specs.Follows.{follows_refl, follows_trans};
ghost use Rattle.feed_actions.specs.Sinks.{summed, added};
ghost use Rattle.feed_actions.specs.Sums.{summed-none, summed-more};

use crate::counter::{Counter, TooManyRows};
use block_pool::Hand;
use dia_edge::Disk;
use dia_item::{Field, RowRef};
use lop_chain::RowSink;
use std::sync::Wait;

/// Adds up the numbers in a column modulo 2^64, of as many rows as may arrive at an action. It refuses the next one.
#[derive(Drop)]
pub struct Summer<'p, D> {
    /// The column.
    pub column: usize,
    /// The sum.
    pub sum: u64,
    /// The rows that were taken.
    pub counter: Counter<'p, D>,
    ghost fits: { sum < 2 ^ 64 },
}

impl<'p, D: Disk> Summer<'p, D> {
    /// Nothing added up yet.
    pub fn new(column: usize) -> Summer<'p, D>
        ensures column { result.column ≡ column }
        ensures sum { result.sum ≡ 0 }
        ensures none { result.counter.rows ≡ 0 }
        ensures is_open { result.counter.shut ≡ false }
    {
        Summer {
            column,
            sum: 0,
            counter: Counter::new(),
        }
    }
}

impl<'p, D: Disk + 'p> RowSink for Summer<'p, D> {
    type Desk = Hand<'p, D>;

    type Refusal = TooManyRows;

    ghost took = { λ s rows t. (t.counter.rows ≡ s.counter.rows + length rows) × summed s.sum (added s.column rows) t.sum × (t.column ≡ s.column) };

    ghost accepts = { λ s kinds. slice_get kinds s.column ≡ Some Int };

    ghost serves = { λ s d. ⊤ };

    ghost is_shut = { λ s. s.counter.shut };

    ghost held = { λ s d. d.permits };

    ghost follows = { λ a b. Follows a b };

    ghost refused = { λ s a row e t b. s.counter.rows ≡ most_rows };

    ghost stays = { λ s t. t.column ≡ s.column };

    #[inline]
    fn take<R: Wait>(
        &mut self,
        _rt: &R,
        _desk: &mut Hand<'p, D>,
        row: RowRef<'_>,
    ) -> Result<(), TooManyRows> {
        self.counter.add()?;
        if let Field::Int(n) = row.field(self.column) {
            self.sum = self.sum.wrapping_add(n);
        }
        Ok(())
    }

    ghost took_none = { λ s. (Prim.omega arith, summed-none s.sum, refl) };

    ghost took_more = { λ a b c xs ys p q. (
      Prim.omega (arith, p.0, q.0, length-append xs ys),
      summed-more a.column b.column xs ys a.sum b.sum c.sum p.2 p.1 q.1,
      q.2 ∙ p.2,
    ) };

    ghost follows_refl = { λ d. follows_refl d };

    ghost follows_trans = { λ a b c p q. follows_trans a b c p q };

    ghost stays_refl = { λ s. refl };

    ghost stays_trans = { λ a b c p q. q ∙ p };

    ghost refused_from = { λ s t a b c row e p q. q };
}
