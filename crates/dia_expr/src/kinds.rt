//! Kinds of expressions.
ghost use Rattle.std.specs.Prelude.{◌≡◌, ◌↔◌, length, IsTrue};
ghost use Rattle.std.specs.Result.{result_ok, IsErrOf};
ghost use Rattle.row_defs.specs.Values.{expr_kind, lacks_column, is_int, is_text, are_alike, kind_where};
ghost use Rattle.dia_item.specs.KindList.{kind_list};
ghost use Rattle.dia_expr.specs.Exprs.{expr_in};
ghost use Rattle.dia_expr.specs.Typing.{is_numeric};

use crate::expr::Expr;
use dia_item::{Kind, Kinds};
use thiserror::Error;

/// Why an expression has no kind on rows of some kinds.
#[derive(Clone, Copy, Debug, PartialEq, Eq, Error)]
pub enum KindErr {
    /// It names a column that isn't there. This comes before the other.
    #[error("a column isn't there")]
    BadColumn,
    /// An operand hasn't the kind that its form asks for.
    #[error("an operand has the wrong kind")]
    BadKind,
}

fn is_int(kind: Option<Kind>) -> bool
    ensures { result ≡ is_int kind }
{
    matches!(kind, Some(Kind::Int))
}

fn is_text(kind: Option<Kind>) -> bool
    ensures { result ≡ is_text kind }
{
    matches!(kind, Some(Kind::Text))
}

fn are_alike(x: Option<Kind>, y: Option<Kind>) -> bool
    ensures { result ≡ are_alike x y }
{
    is_int(x) && is_int(y) || is_text(x) && is_text(y)
}

fn kind_where(holds: bool, kind: Option<Kind>) -> Option<Kind>
    ensures { result ≡ kind_where holds kind }
{
    if holds { kind } else { None }
}

/// Whether a column is named that isn't one of so many.
fn lacks_column(expr: &Expr, columns: usize) -> bool
    ensures { result ≡ lacks_column columns (expr_in expr.now) }
{
    match expr {
        Expr::Column(i) => columns <= *i as usize,
        Expr::Number(_) | Expr::Literal(_) => false,
        Expr::Not(a) | Expr::Len(a) | Expr::Num(a) | Expr::Text(a) => lacks_column(a, columns),
        Expr::Math(_, a, b) | Expr::Compare(_, a, b) | Expr::Part(_, a, b) => {
            lacks_column(a, columns) || lacks_column(b, columns)
        }
        Expr::If(c, x, y) => {
            lacks_column(c, columns) || lacks_column(x, columns) || lacks_column(y, columns)
        }
    }
}

/// Whether the form alone tells that an expression makes numbers: wherever it has a kind, that is `Kind::Int`. A column
/// may be of either kind.
pub fn is_numeric(expr: &Expr) -> bool
    ensures { result ≡ is_numeric (expr_in expr.now) }
{
    match expr {
        Expr::Number(_) | Expr::Math(..) | Expr::Not(_) | Expr::Compare(..) => true,
        Expr::Len(_) | Expr::Num(_) => true,
        Expr::If(_, x, y) => is_numeric(x) || is_numeric(y),
        Expr::Column(_) | Expr::Literal(_) | Expr::Text(_) | Expr::Part(..) => false,
    }
}

/// The kind on rows of these kinds, where there is one.
fn kind_among(expr: &Expr, kinds: &[Kind]) -> Option<Kind>
    ensures { result ≡ expr_kind kinds.now (expr_in expr.now) }
{
    const INT: Option<Kind> = Some(Kind::Int);
    const TEXT: Option<Kind> = Some(Kind::Text);
    match expr {
        Expr::Column(i) => kinds.get(*i as usize).copied(),
        Expr::Number(_) => INT,
        Expr::Literal(_) => TEXT,
        Expr::Math(_, a, b) => {
            let ints = is_int(kind_among(a, kinds)) && is_int(kind_among(b, kinds));
            kind_where(ints, INT)
        }
        Expr::Not(a) => kind_where(is_int(kind_among(a, kinds)), INT),
        Expr::Compare(_, x, y) => {
            kind_where(are_alike(kind_among(x, kinds), kind_among(y, kinds)), INT)
        }
        Expr::If(c, x, y) => {
            let kind = kind_among(x, kinds);
            let alike = are_alike(kind, kind_among(y, kinds));
            kind_where(is_int(kind_among(c, kinds)) && alike, kind)
        }
        Expr::Len(t) | Expr::Num(t) => kind_where(is_text(kind_among(t, kinds)), INT),
        Expr::Text(a) => kind_where(is_int(kind_among(a, kinds)), TEXT),
        Expr::Part(_, a, t) => {
            let fit = is_int(kind_among(a, kinds)) && is_text(kind_among(t, kinds));
            kind_where(fit, TEXT)
        }
    }
}

/// The kind of an expression on rows of these kinds. `BadColumn` comes exactly where a column is named that isn't
/// there, and else `BadKind` exactly where there is no kind.
pub fn kind_of(expr: &Expr, kinds: &Kinds) -> Result<Kind, KindErr>
    ensures kind { result_ok result ≡ expr_kind (kind_list kinds.now) (expr_in expr.now) }
    ensures column { IsErrOf result KindErr.BadColumn ↔ IsTrue (lacks_column (length (kind_list kinds.now)) (expr_in expr.now)) }
{
    let list = kinds.list();
    if lacks_column(expr, list.len()) {
        return Err(KindErr::BadColumn);
    }
    kind_among(expr, list).ok_or(KindErr::BadKind)
}
