//! Reducers that keep a field as it is.
ghost use Rattle.std.specs.Prelude.{◌≡◌, refl, ⊤};
ghost use Rattle.fold_defs.specs.Folds.{left_cell, right_cell};

use crate::reducer::Reducer;
use dia_item::Field;

/// The first field.
#[derive(Clone, Copy, Debug)]
pub struct First;

impl Reducer for First {
    ghost combines = { λ _. left_cell };

    ghost takes = { λ _ _. ⊤ };

    #[inline]
    fn combine<'a>(&self, left: Field<'a>, right: Field<'a>) -> Field<'a> {
        left
    }

    ghost associates = { λ _ a b c. refl };
}

/// The last field.
#[derive(Clone, Copy, Debug)]
pub struct Last;

impl Reducer for Last {
    ghost combines = { λ _. right_cell };

    ghost takes = { λ _ _. ⊤ };

    #[inline]
    fn combine<'a>(&self, left: Field<'a>, right: Field<'a>) -> Field<'a> {
        right
    }

    ghost associates = { λ _ a b c. refl };
}
