//! The kinds of a row.
ghost use Rattle.std.specs.Prelude.{◌≤◌, ◌<◌};
ghost use Rattle.row_defs.specs.Limits.{most_columns};

use row_defs::Kind;
use row_defs::limits::MOST_COLUMNS;

/// From one to six kinds, those of a row's columns in order.
#[derive(Clone, Copy)]
pub struct Kinds {
    all: [Kind; MOST_COLUMNS],
    count: usize,
    ghost some: { 0 < count },
    ghost most: { count ≤ most_columns },
}

impl Kinds {
    ghost use Rattle.std.specs.Prelude.{◌≡◌, ◌≤◌, ◌<◌, ◌++◌, ◌∷◌, [], IfSome, IsSome, IsTrue, ◌↔◌, length};
    ghost use Rattle.dia_item.specs.KindList.{kind_list};

    /// These kinds; None where there are none of them, or more than six.
    pub fn new(kinds: &[Kind]) -> Option<Kinds>
        ensures list { IfSome result (λ k. kind_list k ≡ kinds.now) }
        ensures some { IsSome result ↔ ((0 < length kinds.now) × (length kinds.now ≤ MOST_COLUMNS)) }
    {
        if kinds.is_empty() || kinds.len() > MOST_COLUMNS {
            return None;
        }
        Some(Kinds::of(kinds))
    }

    /// These kinds, which are some, and no more than six.
    pub fn of(kinds: &[Kind]) -> Kinds
        requires some { 0 < length kinds.now }
        requires most { length kinds.now ≤ MOST_COLUMNS }
        ensures { kind_list result ≡ kinds.now }
    {
        let mut all = [Kind::Int; MOST_COLUMNS];
        all[..kinds.len()].copy_from_slice(kinds);
        Kinds {
            all,
            count: kinds.len(),
        }
    }

    /// This one kind.
    pub fn one(kind: Kind) -> Kinds
        ensures { kind_list result ≡ kind ∷ [] }
    {
        let mut all = [Kind::Int; MOST_COLUMNS];
        all[0] = kind;
        Kinds { all, count: 1 }
    }

    /// Whether there is one kind, and it is this.
    #[inline]
    pub(crate) fn is_one(&self, kind: Kind) -> bool
        ensures { IsTrue result → kind_list self.now ≡ kind ∷ [] }
    {
        self.count == 1 && self.all[0] == kind
    }

    /// One more kind.
    #[inline]
    pub(crate) fn push(&mut self, kind: Kind)
        requires { length (kind_list self.old) < MOST_COLUMNS }
        ensures { kind_list self.new ≡ kind_list self.old ++ kind ∷ [] }
    {
        self.all[self.count] = kind;
        self.count += 1;
    }

    /// These kinds and one more.
    pub fn and(&self, kind: Kind) -> Kinds
        requires { length (kind_list self.now) < MOST_COLUMNS }
        ensures { kind_list result ≡ kind_list self.now ++ kind ∷ [] }
    {
        let mut kinds = *self;
        kinds.push(kind);
        kinds
    }

    /// The kinds, in order.
    #[inline]
    pub fn list(&self) -> &[Kind]
        ensures list { result.now ≡ kind_list self.now }
        ensures some { 0 < length result.now }
        ensures most { length result.now ≤ MOST_COLUMNS }
    {
        &self.all[..self.count]
    }
}
