//! Reducers of texts.
ghost use Rattle.std.specs.Prelude.{◌≡◌};
ghost use Rattle.row_defs.specs.declared.kind.Kind.TheVariants.{Text};
ghost use Rattle.fold_defs.specs.Folds.{first_text, last_text};
ghost use Rattle.reducer.specs.Laws.{first_text-assoc, first_text-comm, last_text-assoc, last_text-comm};

use crate::reducer::{Commuting, Reducer};
use dia_item::Field;
use std::cmp::Ordering;

/// The text that comes first.
#[derive(Clone, Copy, Debug)]
pub struct TextMin;

impl Reducer for TextMin {
    ghost combines = { λ _. first_text };

    ghost takes = { λ _ kind. kind ≡ Text };

    #[inline]
    fn combine<'a>(&self, left: Field<'a>, right: Field<'a>) -> Field<'a> {
        match (left, right) {
            (Field::Text(s), Field::Text(t)) => match s.cmp(t) {
                Ordering::Greater => right,
                _ => left,
            },
            _ => unreachable!(),
        }
    }

    ghost associates = { λ _. first_text-assoc };
}

impl Commuting for TextMin {
    ghost commutes = { λ _. first_text-comm };
}

/// The text that comes last.
#[derive(Clone, Copy, Debug)]
pub struct TextMax;

impl Reducer for TextMax {
    ghost combines = { λ _. last_text };

    ghost takes = { λ _ kind. kind ≡ Text };

    #[inline]
    fn combine<'a>(&self, left: Field<'a>, right: Field<'a>) -> Field<'a> {
        match (left, right) {
            (Field::Text(s), Field::Text(t)) => match s.cmp(t) {
                Ordering::Greater => left,
                _ => right,
            },
            _ => unreachable!(),
        }
    }

    ghost associates = { λ _. last_text-assoc };
}

impl Commuting for TextMax {
    ghost commutes = { λ _. last_text-comm };
}
