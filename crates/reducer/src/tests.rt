//! What the reducers of the language are, by values from outside.
ghost use Rattle.row_defs.specs.declared.kind.Kind.TheVariants.{Int};
ghost use Rattle.fold_defs.specs.Folds.{Takes};

use crate::Reducer;
use dia_item::Field;
use fold_defs::Named;

/// Whether a reducer makes this number of two.
fn makes(by: Named, left: u64, right: u64, want: u64) -> bool
    requires { Takes by Int }
{
    match by.combine(Field::Int(left), Field::Int(right)) {
        Field::Int(made) => made == want,
        Field::Text(_) => false,
    }
}

#[test]
fn numbers_wrap_and_go_bit_by_bit(rt: HostRuntime) {
    assert!(rt; makes(Named::Sum, u64::MAX, 2, 1));
    assert!(rt; makes(Named::Xor, 6, 3, 5));
    assert!(rt; makes(Named::And, 6, 3, 2));
    assert!(rt; makes(Named::Or, 6, 3, 7));
    assert!(rt; makes(Named::Last, 6, 3, 3));
}
