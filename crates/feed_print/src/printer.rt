//! The sink that prints.
ghost use Rattle.std.specs.Prelude.{◌≡◌, ◌++◌, refl, ⊤};
ghost use Rattle.std.proofs.Common.{◌∙◌};
ghost use Rattle.row_defs.specs.Printed.{row_text};
ghost use Rattle.dia_edge.specs.Sinks.{Puts};
ghost use Rattle.block_pool.specs.Handles.{Follows};
ghost use Rattle.block_pool.specs.Follows.{follows_refl, follows_trans};
ghost use Rattle.feed_print.specs.Printing.{texts_of_rows, printed, refused, prints_none, prints_more};

use block_pool::{Hand, Pool};
use dia_edge::{Disk, Failed, Sink};
use dia_item::RowRef;
use lop_chain::RowSink;
use std::sync::Wait;
use text_out::{OutBuffer, push_row};

/// Prints the rows that it takes, through a buffer: what still waits there is to be flushed at the end. It refuses the
/// row at which the sink below fails.
#[derive(Drop)]
pub(crate) struct Printer<'p, 'b, 'o, D: Disk, S> {
    /// What waits.
    pub(crate) buffer: &'b mut OutBuffer,
    /// Where the texts go.
    pub(crate) out: &'o mut S,
    /// Whether the sink below failed.
    pub(crate) shut: bool,
    // It names the hand that the printer is lent, and is never there.
    pub(crate) of: Option<&'p Pool<D>>,
}

impl<'p, 'b, 'o, D: Disk + 'p, S: Sink> RowSink for Printer<'p, 'b, 'o, D, S> {
    type Desk = Hand<'p, D>;

    type Refusal = Failed;

    ghost took = { λ a rows b. Puts S.taken S.faults a.out.now b.out.now (a.buffer.now ++ texts_of_rows rows) b.buffer.now printed };

    ghost accepts = { λ a kinds. ⊤ };

    ghost serves = { λ a d. ⊤ };

    ghost is_shut = { λ a. a.shut };

    ghost held = { λ a d. d.permits };

    ghost follows = { λ a b. Follows a b };

    ghost refused = { λ a d row e b f. Puts S.taken S.faults a.out.now b.out.now (a.buffer.now ++ row_text row) b.buffer.now (refused e) };

    // The names of the loans stay, so that their lender knows what they hold after the call.
    ghost stays = { λ a b. (b.out.ghost_name ≡ a.out.ghost_name) × (b.buffer.ghost_name ≡ a.buffer.ghost_name) };

    #[inline(always)]
    fn take<R: Wait>(
        &mut self,
        _rt: &R,
        _hand: &mut Hand<'p, D>,
        row: RowRef<'_>,
    ) -> Result<(), Failed> {
        let pushed = push_row(self.buffer, self.out, &row);
        self.shut = pushed.is_err();
        pushed
    }

    ghost took_none = { λ a. prints_none S.taken S.faults a.out.now a.buffer.now };

    ghost took_more = { λ a b c xs ys p q. prints_more S.taken S.faults a.out.now b.out.now c.out.now a.buffer.now b.buffer.now c.buffer.now xs ys printed p q };

    ghost follows_refl = { λ d. follows_refl d };

    ghost follows_trans = { λ a b c p q. follows_trans a b c p q };

    ghost stays_refl = { λ a. (refl, refl) };

    ghost stays_trans = { λ a b c p q. (q.0 ∙ p.0, q.1 ∙ p.1) };

    ghost refused_from = { λ s t a b c row e p q. q };
}
