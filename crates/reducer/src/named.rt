//! The ten reducers by name.
ghost use Rattle.std.specs.Prelude.{◌≡◌};
ghost use Rattle.fold_defs.specs.Folds.{combined, Takes};
ghost use Rattle.reducer.specs.Laws.{combined-assoc};

use crate::ends::{First, Last};
use crate::numbers::{And, Max, Min, Or, Sum, Xor};
use crate::reducer::Reducer;
use crate::texts::{TextMax, TextMin};
use dia_item::Field;
use fold_defs::Named;

impl Reducer for Named {
    ghost combines = { combined };

    ghost takes = { Takes };

    #[inline]
    fn combine<'a>(&self, left: Field<'a>, right: Field<'a>) -> Field<'a> {
        match self {
            Named::Sum => Sum.combine(left, right),
            Named::Min => Min.combine(left, right),
            Named::Max => Max.combine(left, right),
            Named::Xor => Xor.combine(left, right),
            Named::And => And.combine(left, right),
            Named::Or => Or.combine(left, right),
            Named::TextMin => TextMin.combine(left, right),
            Named::TextMax => TextMax.combine(left, right),
            Named::First => First.combine(left, right),
            Named::Last => Last.combine(left, right),
        }
    }

    ghost associates = { combined-assoc };
}
