//! A sink that keeps the numbers of its rows.
ghost use Rattle.std.specs.Prelude.{◌≡◌, ◌∷◌, [], false, refl, ⊤};
ghost use Rattle.row_defs.specs.declared.kind.Kind.TheVariants.{Int};
ghost use Rattle.block_pool.specs.Handles.{Follows};
ghost use Rattle.block_pool.specs.Follows.{follows_refl, follows_trans};

use block_pool::{Hand, Pool};
use dia_edge::MemDisk;
use dia_item::{Field, RowRef};
use lop_chain::RowSink;
use std::marker::PhantomData;
use std::sync::Wait;

/// A row too many, or one for which there was no memory.
#[derive(Clone, Copy, Debug, PartialEq, Eq)]
pub(crate) struct Refused;

/// Keeps the numbers of rows of one number, of which it takes only so many.
#[derive(Drop)]
pub(crate) struct Keep<'p> {
    pub(crate) numbers: Vec<u64>,
    pub(crate) most: usize,
    pub(crate) shut: bool,
    of: PhantomData<&'p Pool<MemDisk>>,
}

impl<'p> Keep<'p> {
    pub(crate) fn new(numbers: Vec<u64>, most: usize) -> Keep<'p>
        ensures { result.shut ≡ false }
    {
        Keep {
            numbers,
            most,
            shut: false,
            of: PhantomData,
        }
    }

    fn add(&mut self, n: u64) -> Result<(), Refused> {
        if self.numbers.len() >= self.most {
            return Err(Refused);
        }
        match self.numbers.push(n) {
            Ok(()) => Ok(()),
            Err(_) => Err(Refused),
        }
    }
}

impl<'p> RowSink for Keep<'p> {
    type Desk = Hand<'p, MemDisk>;

    type Refusal = Refused;

    ghost took = { λ s rows t. ⊤ };

    ghost accepts = { λ s kinds. kinds ≡ Int ∷ [] };

    ghost serves = { λ s d. ⊤ };

    ghost is_shut = { λ s. s.shut };

    ghost held = { λ s d. d.permits };

    ghost follows = { λ a b. Follows a b };

    ghost refused = { λ s a row e t b. ⊤ };

    ghost stays = { λ s t. ⊤ };

    fn take<R: Wait>(
        &mut self,
        _rt: &R,
        _desk: &mut Hand<'p, MemDisk>,
        row: RowRef<'_>,
    ) -> Result<(), Refused> {
        let added = match row.field(0) {
            Field::Int(n) => self.add(n),
            Field::Text(_) => Err(Refused),
        };
        self.shut = added.is_err();
        added
    }

    ghost took_none = { λ s. tt };

    ghost took_more = { λ a b c xs ys p q. tt };

    ghost follows_refl = { λ d. follows_refl d };

    ghost follows_trans = { λ a b c p q. follows_trans a b c p q };

    ghost stays_refl = { λ s. tt };

    ghost stays_trans = { λ a b c p q. tt };

    ghost refused_from = { λ s t a b c row e p q. tt };
}
