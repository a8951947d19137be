//! What folds keep. The calls do nothing: they are there for what they say.
ghost use Rattle.reducer.specs.Said.{FoldsOfParts, FoldsInAnyOrder, FoldsByColumn, ReducesMore, ReducesParts, ReducesInAnyOrder, ReducesToAnyOrder};

/// The fold of two lists, one after the other, is what their folds come to.
#[inline]
pub fn folds_of_parts()
    ensures { FoldsOfParts }
{}

/// Where a reducer commutes, the order of the cells doesn't matter.
#[inline]
pub fn folds_in_any_order()
    ensures { FoldsInAnyOrder }
{}

/// Rows are folded column by column, each column by its own reducer.
#[inline]
pub fn folds_by_column()
    ensures { FoldsByColumn }
{}

/// One more row goes into the row of its key, or to the end.
#[inline]
pub fn reduces_more()
    ensures { ReducesMore }
{}

/// What parts of the rows come to may be reduced once more.
#[inline]
pub fn reduces_parts()
    ensures { ReducesParts }
{}

/// Where all reducers commute, the order of the rows doesn't matter.
#[inline]
pub fn reduces_in_any_order()
    ensures { ReducesInAnyOrder }
{}

/// The order of the result is free.
#[inline]
pub fn reduces_to_any_order()
    ensures { ReducesToAnyOrder }
{}
