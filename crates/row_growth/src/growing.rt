//! How many rows local lines make of so many.
ghost use Rattle.std.specs.Prelude.{◌≡◌, ◌-◌, ◌^◌, List, ◌≤◌, length, min, take, slice_set};
ghost use Rattle.std.specs.List.{AllByRecursion};
ghost use Rattle.row_defs.specs.Rows.{Row};
ghost use Rattle.row_defs.specs.Limits.{most_columns};
ghost use Rattle.dia_expr.specs.Exprs.{expr_in};
ghost use Rattle.lop_chain.specs.Ops.{exprs_in, ops_in, rows_from};
ghost use Rattle.row_growth.specs.Growth.{AreWithin, most_words, words_at, words_of, words_of_each, growth, are_even, extent, TellsExtent};

use arrayvec::ArrayVec;
use dia_expr::{Expr, Part};
use lop_chain::ScriptOp;
use row_defs::limits::MOST_COLUMNS;

/// How many words a text of so many bytes has at most: words of one byte, and a blank between any two.
fn most_words(len: usize) -> u64
    ensures { result ≡ most_words len }
{
    (len / 2 + len % 2) as u64
}

/// How many words the text in a column has at most, or `u64::MAX` where that isn't known.
fn words_at(bounds: &[u64], column: u32) -> u64
    ensures { result ≡ words_at bounds.now column }
{
    bounds.get(column as usize).copied().unwrap_or(u64::MAX)
}

/// Bounds a column's words anew, where it has a bound.
fn set_words_at(bounds: &mut [u64], column: u32, words: u64)
    ensures { bounds.new ≡ slice_set bounds.old column words }
{
    let column = column as usize;
    if column < bounds.len() {
        bounds[column] = words;
    }
}

/// How many words the value of an expression has at most, or `u64::MAX` where that isn't known. A number has none.
fn words_of(bounds: &[u64], expr: &Expr) -> u64
    ensures { result ≡ words_of bounds.now (expr_in expr.now) }
{
    match expr {
        Expr::Column(column) => words_at(bounds, *column),
        Expr::Literal(t) => most_words(t.bytes().len()),
        Expr::If(_, x, y) => words_of(bounds, x).max(words_of(bounds, y)),
        Expr::Text(_) | Expr::Part(Part::Word, _, _) => 1,
        Expr::Part(_, _, t) => words_of(bounds, t),
        _ => 0,
    }
}

/// The first expressions, as many as a row may have columns.
fn first_exprs(exprs: &[Expr]) -> &[Expr]
    ensures first { result.now ≡ take most_columns exprs.now }
    ensures few { length result.now ≤ most_columns }
{
    if exprs.len() > MOST_COLUMNS {
        exprs.split_at(MOST_COLUMNS).0
    } else {
        exprs
    }
}

/// How many words the values of the first expressions have at most.
fn words_of_each(bounds: &[u64], exprs: &[Expr]) -> ArrayVec<u64, MOST_COLUMNS>
    ensures { result.items ≡ words_of_each bounds.now (exprs_in exprs.now) }
{
    let mut made = ArrayVec::new();
    for expr in first_exprs(exprs) {
        made.push(words_of(bounds, expr));
    }
    made
}

/// How many rows lines, one after the other, make of one row at most, or `u64::MAX` where they may make more. `bounds` has
/// for each of the row's first columns how many words its text has at most.
fn growth(bounds: &mut [u64], ops: &[ScriptOp]) -> u64
    ensures { result ≡ min (growth bounds.old (ops_in ops.now)) (2 ^ 64 - 1) }
{
    let Some((op, rest)) = ops.split_first() else {
        return 1;
    };
    match op {
        ScriptOp::Map(exprs) => growth(
            words_of_each(bounds, exprs.as_slice()).as_mut_slice(),
            rest,
        ),
        ScriptOp::Filter(_) => growth(bounds, rest),
        ScriptOp::Words { column } => {
            let words = words_at(bounds, *column);
            set_words_at(bounds, *column, 1);
            growth(bounds, rest).saturating_mul(words)
        }
        ScriptOp::Spread { count, .. } => growth(bounds, rest).saturating_mul(u64::from(*count)),
    }
}

/// Whether each line makes as many rows of each row: only filters and words look at what stands there.
fn are_even(ops: &[ScriptOp]) -> bool
    ensures { result ≡ are_even (ops_in ops.now) }
{
    match ops.split_first() {
        None => true,
        Some((op, rest)) => match op {
            ScriptOp::Map(_) | ScriptOp::Spread { .. } => are_even(rest),
            ScriptOp::Filter(_) | ScriptOp::Words { .. } => false,
        },
    }
}

/// How many rows a chain of lines makes of so many, as far as it is known at once.
#[derive(Clone, Copy, Debug, PartialEq, Eq)]
pub enum Extent {
    /// So many; `u64::MAX` where there are more.
    Exactly(u64),
    /// So many at most; `u64::MAX` says nothing.
    AtMost(u64),
}

/// How many rows these lines make of so many rows, whose texts have at most `longest` bytes: exactly where none of the lines
/// is a filter or makes words. `u64::MAX` rows stand for as many or more.
pub fn extent_of(rows: u64, longest: usize, ops: &[ScriptOp]) -> Extent
    ensures value { result ≡ extent rows longest (ops_in ops.now) }
    ensures tells { (all : List Row) → min (length all) (2 ^ 64 - 1) ≡ rows → AllByRecursion (AreWithin longest) all
        → TellsExtent result (length (rows_from (ops_in ops.now) all)) }
{
    let made = rows.saturating_mul(growth(&mut [most_words(longest); MOST_COLUMNS], ops));
    if are_even(ops) {
        Extent::Exactly(made)
    } else {
        Extent::AtMost(made)
    }
}
