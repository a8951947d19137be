//! Reducers of numbers.
ghost use Rattle.std.specs.Prelude.{◌≡◌};
ghost use Rattle.row_defs.specs.declared.kind.Kind.TheVariants.{Int};
ghost use Rattle.fold_defs.specs.Folds.{sums, smaller, larger, xors, ands, ors};
ghost use Rattle.reducer.specs.Laws.{sums-assoc, sums-comm, smaller-assoc, smaller-comm, larger-assoc, larger-comm, xors-assoc, xors-comm, ands-assoc, ands-comm, ors-assoc, ors-comm};

use crate::reducer::{Commuting, Reducer};
use dia_item::Field;

/// The sum modulo 2^64.
#[derive(Clone, Copy, Debug)]
pub struct Sum;

impl Reducer for Sum {
    ghost combines = { λ _. sums };

    ghost takes = { λ _ kind. kind ≡ Int };

    #[inline]
    fn combine<'a>(&self, left: Field<'a>, right: Field<'a>) -> Field<'a> {
        match (left, right) {
            (Field::Int(a), Field::Int(b)) => Field::Int(a.wrapping_add(b)),
            _ => unreachable!(),
        }
    }

    ghost associates = { λ _. sums-assoc };
}

impl Commuting for Sum {
    ghost commutes = { λ _. sums-comm };
}

/// The smaller number.
#[derive(Clone, Copy, Debug)]
pub struct Min;

impl Reducer for Min {
    ghost combines = { λ _. smaller };

    ghost takes = { λ _ kind. kind ≡ Int };

    #[inline]
    fn combine<'a>(&self, left: Field<'a>, right: Field<'a>) -> Field<'a> {
        match (left, right) {
            (Field::Int(a), Field::Int(b)) => Field::Int(a.min(b)),
            _ => unreachable!(),
        }
    }

    ghost associates = { λ _. smaller-assoc };
}

impl Commuting for Min {
    ghost commutes = { λ _. smaller-comm };
}

/// The larger number.
#[derive(Clone, Copy, Debug)]
pub struct Max;

impl Reducer for Max {
    ghost combines = { λ _. larger };

    ghost takes = { λ _ kind. kind ≡ Int };

    #[inline]
    fn combine<'a>(&self, left: Field<'a>, right: Field<'a>) -> Field<'a> {
        match (left, right) {
            (Field::Int(a), Field::Int(b)) => Field::Int(a.max(b)),
            _ => unreachable!(),
        }
    }

    ghost associates = { λ _. larger-assoc };
}

impl Commuting for Max {
    ghost commutes = { λ _. larger-comm };
}

/// Bit by bit, where one of the two is 1.
#[derive(Clone, Copy, Debug)]
pub struct Xor;

impl Reducer for Xor {
    ghost combines = { λ _. xors };

    ghost takes = { λ _ kind. kind ≡ Int };

    #[inline]
    fn combine<'a>(&self, left: Field<'a>, right: Field<'a>) -> Field<'a> {
        match (left, right) {
            (Field::Int(a), Field::Int(b)) => Field::Int(a ^ b),
            _ => unreachable!(),
        }
    }

    ghost associates = { λ _. xors-assoc };
}

impl Commuting for Xor {
    ghost commutes = { λ _. xors-comm };
}

/// Bit by bit, where both are 1.
#[derive(Clone, Copy, Debug)]
pub struct And;

impl Reducer for And {
    ghost combines = { λ _. ands };

    ghost takes = { λ _ kind. kind ≡ Int };

    #[inline]
    fn combine<'a>(&self, left: Field<'a>, right: Field<'a>) -> Field<'a> {
        match (left, right) {
            (Field::Int(a), Field::Int(b)) => Field::Int(a & b),
            _ => unreachable!(),
        }
    }

    ghost associates = { λ _. ands-assoc };
}

impl Commuting for And {
    ghost commutes = { λ _. ands-comm };
}

/// Bit by bit, where at least one is 1.
#[derive(Clone, Copy, Debug)]
pub struct Or;

impl Reducer for Or {
    ghost combines = { λ _. ors };

    ghost takes = { λ _ kind. kind ≡ Int };

    #[inline]
    fn combine<'a>(&self, left: Field<'a>, right: Field<'a>) -> Field<'a> {
        match (left, right) {
            (Field::Int(a), Field::Int(b)) => Field::Int(a | b),
            _ => unreachable!(),
        }
    }

    ghost associates = { λ _. ors-assoc };
}

impl Commuting for Or {
    ghost commutes = { λ _. ors-comm };
}
