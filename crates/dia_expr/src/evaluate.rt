//! Values of expressions.
ghost use Rattle.std.specs.Prelude.{◌≡◌, ◌<◌, ◌≤◌, ◌++◌, ◌∷◌, [], Some, length, IsSome, slice_get, slice_index_or};
ghost use Rattle.row_defs.specs.Rows.{int, text, kinds_of, cell_cmp, Fits};
ghost use Rattle.row_defs.specs.Limits.{longest_text};
ghost use Rattle.row_defs.specs.Values.{expr_kind, value_of, bytes_in};
ghost use Rattle.row_defs.specs.Texts.{number_or_0};
ghost use Rattle.row_defs.specs.declared.kind.Kind.TheVariants.{Int, Text};
ghost use Rattle.row_defs.specs.declared.kind.Kind.{Kind as AnyKind};
ghost use Rattle.dia_item.specs.Lent.{row_in_ref};
ghost use Rattle.dia_expr.specs.Exprs.{expr_in};
ghost use Rattle.dia_expr.specs.Typing.{HasKind, ComparesTexts};

use crate::expr::Expr;
use crate::math::{compared, math};
use crate::texts::{number_spelled, part_of};
use dia_item::{Field, Kind, RowBuf, RowRef};
use itoa::Buffer;

/// The kind of an expression that has one.
fn kind_in(expr: &Expr, row: &RowRef<'_>) -> Kind
    requires { (kind : AnyKind) × HasKind (kinds_of (row_in_ref row.now)) (expr_in expr.now) kind }
    ensures { HasKind (kinds_of (row_in_ref row.now)) (expr_in expr.now) result }
{
    match expr {
        Expr::Column(i) => match row.field(*i as usize) {
            Field::Int(_) => Kind::Int,
            Field::Text(_) => Kind::Text,
        },
        Expr::Number(_) | Expr::Math(..) | Expr::Not(_) | Expr::Compare(..) => Kind::Int,
        Expr::Len(_) | Expr::Num(_) => Kind::Int,
        Expr::Literal(_) | Expr::Text(_) | Expr::Part(..) => Kind::Text,
        Expr::If(_, x, _) => kind_in(x, row),
    }
}

/// The kind of two expressions that have one kind.
fn kind_in_both(x: &Expr, y: &Expr, row: &RowRef<'_>) -> Kind
    requires { (kind : AnyKind) × HasKind (kinds_of (row_in_ref row.now)) (expr_in x.now) kind × HasKind (kinds_of (row_in_ref row.now)) (expr_in y.now) kind }
    ensures x { HasKind (kinds_of (row_in_ref row.now)) (expr_in x.now) result }
    ensures y { HasKind (kinds_of (row_in_ref row.now)) (expr_in y.now) result }
{
    kind_in(x, row)
}

/// A column of kind Int.
#[inline(always)]
pub(crate) fn int_column(row: &RowRef<'_>, i: u32) -> u64
    requires { slice_get (kinds_of (row_in_ref row.now)) i ≡ Some Int }
    ensures { slice_index_or (row_in_ref row.now) i (int 0) ≡ int result }
{
    match row.field(i as usize) {
        Field::Int(n) => n,
        Field::Text(_) => unreachable!(),
    }
}

/// A column of kind Text.
#[inline(always)]
pub(crate) fn text_column<'a>(row: &RowRef<'a>, i: u32) -> &'a [u8]
    requires { slice_get (kinds_of (row_in_ref row.now)) i ≡ Some Text }
    ensures value { slice_index_or (row_in_ref row.now) i (int 0) ≡ text result.now }
    ensures short { length result.now ≤ longest_text }
{
    match row.field(i as usize) {
        Field::Int(_) => unreachable!(),
        Field::Text(t) => t,
    }
}

/// The value of an expression of kind Int.
#[inline(always)]
#[cycle(values)]
fn int_of<'a>(expr: &'a Expr, row: &RowRef<'a>) -> u64
    requires { HasKind (kinds_of (row_in_ref row.now)) (expr_in expr.now) Int }
    ensures { value_of (expr_in expr.now) (row_in_ref row.now) ≡ int result }
{
    match expr {
        Expr::Column(i) => int_column(row, *i),
        Expr::Number(n) => *n,
        Expr::Len(t) => len_of(t, row),
        _ => int_made(expr, row),
    }
}

/// The same where it may take more than a look.
#[inline(never)]
#[cycle(values)]
pub(crate) fn int_made<'a>(expr: &'a Expr, row: &RowRef<'a>) -> u64
    requires { HasKind (kinds_of (row_in_ref row.now)) (expr_in expr.now) Int }
    ensures { value_of (expr_in expr.now) (row_in_ref row.now) ≡ int result }
{
    match expr {
        Expr::Column(i) => int_column(row, *i),
        Expr::Number(n) => *n,
        Expr::Math(op, a, b) => {
            let a = int_of(a, row);
            let b = int_of(b, row);
            math(*op, a, b)
        }
        Expr::Not(a) => u64::from(int_of(a, row) == 0),
        Expr::If(c, x, y) => {
            if int_of(c, row) != 0 {
                int_of(x, row)
            } else {
                int_of(y, row)
            }
        }
        Expr::Compare(op, x, y) => match kind_in_both(x, y, row) {
            Kind::Int => compared(*op, int_of(x, row).cmp(&int_of(y, row))),
            Kind::Text => text_comparison(expr, row),
        },
        Expr::Len(t) => len_of(t, row),
        Expr::Num(t) => num_of(t, row),
        Expr::Literal(_) | Expr::Text(_) | Expr::Part(..) => unreachable!(),
    }
}

/// How many bytes a text has.
#[inline(always)]
#[cycle(values)]
fn len_of<'a>(expr: &'a Expr, row: &RowRef<'a>) -> u64
    requires { HasKind (kinds_of (row_in_ref row.now)) (expr_in expr.now) Text }
    ensures { result ≡ length (bytes_in (value_of (expr_in expr.now) (row_in_ref row.now))) }
{
    match expr {
        Expr::Column(i) => text_column(row, *i).len() as u64,
        _ => len_made(expr, row),
    }
}

// What looks at any text has room for its digits, and stands apart, so that `int_made` has none to set up at each call.

/// The same where it is no column.
#[inline(never)]
#[cycle(values)]
fn len_made<'a>(expr: &'a Expr, row: &RowRef<'a>) -> u64
    requires { HasKind (kinds_of (row_in_ref row.now)) (expr_in expr.now) Text }
    ensures { result ≡ length (bytes_in (value_of (expr_in expr.now) (row_in_ref row.now))) }
{
    let mut digits = Buffer::new();
    text_of(expr, row, &mut digits).len() as u64
}

/// The number that a text spells, or 0.
#[inline(never)]
#[cycle(values)]
fn num_of<'a>(expr: &'a Expr, row: &RowRef<'a>) -> u64
    requires { HasKind (kinds_of (row_in_ref row.now)) (expr_in expr.now) Text }
    ensures { result ≡ number_or_0 (bytes_in (value_of (expr_in expr.now) (row_in_ref row.now))) }
{
    let mut digits = Buffer::new();
    number_spelled(text_of(expr, row, &mut digits)).unwrap_or(0)
}

/// The value of a comparison of two texts.
#[inline(never)]
#[cycle(values)]
fn text_comparison<'a>(expr: &'a Expr, row: &RowRef<'a>) -> u64
    requires { ComparesTexts (kinds_of (row_in_ref row.now)) (expr_in expr.now) }
    ensures { value_of (expr_in expr.now) (row_in_ref row.now) ≡ int result }
{
    match expr {
        Expr::Compare(op, x, y) => {
            let mut of_x = Buffer::new();
            let mut of_y = Buffer::new();
            let x = text_of(x, row, &mut of_x);
            let y = text_of(y, row, &mut of_y);
            compared(*op, x.cmp(y))
        }
        _ => unreachable!(),
    }
}

/// The value of an expression of kind Text: it stands in the row, in the expression or, as digits, in the buffer.
#[cycle(values)]
fn text_of<'d, 'a: 'd>(expr: &'a Expr, row: &RowRef<'a>, digits: &'d mut Buffer) -> &'d [u8]
    requires { HasKind (kinds_of (row_in_ref row.now)) (expr_in expr.now) Text }
    ensures value { value_of (expr_in expr.now) (row_in_ref row.now) ≡ text result.now }
    ensures short { length result.now ≤ longest_text }
{
    match expr {
        Expr::Column(i) => text_column(row, *i),
        Expr::Literal(t) => t.bytes(),
        Expr::If(c, x, y) => {
            if int_of(c, row) != 0 {
                text_of(x, row, digits)
            } else {
                text_of(y, row, digits)
            }
        }
        Expr::Text(a) => digits.format(int_of(a, row)).as_bytes(),
        Expr::Part(op, a, t) => {
            let n = int_of(a, row);
            part_of(*op, n, text_of(t, row, digits))
        }
        Expr::Number(_) | Expr::Math(..) | Expr::Not(_) | Expr::Compare(..) => unreachable!(),
        Expr::Len(_) | Expr::Num(_) => unreachable!(),
    }
}

/// The value on a row of an expression of kind Int. It takes no memory.
#[inline]
pub fn eval_int(expr: &Expr, row: RowRef<'_>) -> u64
    requires { expr_kind (kinds_of (row_in_ref row)) (expr_in expr.now) ≡ Some Int }
    ensures { value_of (expr_in expr.now) (row_in_ref row.entry) ≡ int result }
{
    eval_int_ref(expr, &row)
}

/// The same of a row that stays where it is.
#[inline]
pub fn eval_int_ref(expr: &Expr, row: &RowRef<'_>) -> u64
    requires { expr_kind (kinds_of (row_in_ref row.now)) (expr_in expr.now) ≡ Some Int }
    ensures { value_of (expr_in expr.now) (row_in_ref row.now) ≡ int result }
{
    int_of(expr, row)
}

/// Appends a column: the commonest expression, whose kind needs no look of its own.
fn eval_column(i: u32, row: &RowRef<'_>, into: &mut RowBuf)
    requires column { i < length (row_in_ref row.now) }
    requires room { length into.old < 6 }
    ensures value { into.new ≡ into.old ++ slice_index_or (row_in_ref row.now) i (int 0) ∷ [] }
    ensures fits { Fits (slice_index_or (row_in_ref row.now) i (int 0)) }
{
    match row.field(i as usize) {
        Field::Int(v) => into.push_int(v),
        Field::Text(t) => into.push_text(t),
    }
}

/// Appends a text.
#[inline(never)]
fn eval_text<'a>(expr: &'a Expr, row: &RowRef<'a>, into: &mut RowBuf)
    requires kind { HasKind (kinds_of (row_in_ref row.now)) (expr_in expr.now) Text }
    requires room { length into.old < 6 }
    ensures value { into.new ≡ into.old ++ value_of (expr_in expr.now) (row_in_ref row.now) ∷ [] }
    ensures fits { Fits (value_of (expr_in expr.now) (row_in_ref row.now)) }
{
    let mut digits = Buffer::new();
    into.push_text(text_of(expr, row, &mut digits));
}

/// Appends the value on a row as one column. It takes no memory, and a text is copied once, into the buffer.
#[inline]
pub fn eval(expr: &Expr, row: RowRef<'_>, into: &mut RowBuf)
    requires kind { IsSome (expr_kind (kinds_of (row_in_ref row)) (expr_in expr.now)) }
    requires room { length into.old < 6 }
    ensures value { into.new ≡ into.old ++ value_of (expr_in expr.now) (row_in_ref row.entry) ∷ [] }
    ensures fits { Fits (value_of (expr_in expr.now) (row_in_ref row.entry)) }
{
    eval_ref(expr, &row, into);
}

/// The same of a row that stays where it is.
pub fn eval_ref(expr: &Expr, row: &RowRef<'_>, into: &mut RowBuf)
    requires kind { IsSome (expr_kind (kinds_of (row_in_ref row.now)) (expr_in expr.now)) }
    requires room { length into.old < 6 }
    ensures value { into.new ≡ into.old ++ value_of (expr_in expr.now) (row_in_ref row.now) ∷ [] }
    ensures fits { Fits (value_of (expr_in expr.now) (row_in_ref row.now)) }
{
    if let Expr::Column(i) = expr {
        eval_column(*i, row, into);
        return;
    }
    match kind_in(expr, row) {
        Kind::Int => into.push_int(int_of(expr, row)),
        Kind::Text => eval_text(expr, row, into),
    }
}
