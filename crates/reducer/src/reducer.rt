//! What a reducer is.
ghost use Rattle.std.specs.Prelude.{◌≡◌};
ghost use Rattle.row_defs.specs.Rows.{Cell, kind_of};
ghost use Rattle.row_defs.specs.declared.kind.Kind.{Kind};
ghost use Rattle.dia_item.specs.Fields.{cell_of};

use dia_item::Field;

/// Makes one field of two. How many are taken together first doesn't matter.
pub trait Reducer {
    /// What two cells come to.
    ghost combines: { Self → Cell → Cell → Cell };

    /// The kinds of field that it takes.
    ghost takes: { Self → Kind → Type 0 };

    /// What two fields of one kind come to. It takes no memory.
    fn combine<'a>(&self, left: Field<'a>, right: Field<'a>) -> Field<'a>
        requires takes { takes self.now (kind_of (cell_of left)) }
        requires alike { kind_of (cell_of right) ≡ kind_of (cell_of left) }
        ensures { cell_of result ≡ combines self.now (cell_of left.entry) (cell_of right.entry) };

    ghost associates: { (x : Self) (a b c : Cell) → combines x (combines x a b) c ≡ combines x a (combines x b c) };
}

/// A reducer to which the order of the fields doesn't matter.
pub trait Commuting: Reducer {
    ghost commutes: { (x : Self) (a b : Cell) → Self.combines x a b ≡ Self.combines x b a };
}
