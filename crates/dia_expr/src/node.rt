//! What is computed of an expression of kind Int: what is constant is a number, an operand that is a column, its length
//! or a number needs no step of its own, a division by a number is a product, and a comparison with a number or a text
//! that stands there looks at no kinds.
ghost use Rattle.std.specs.Prelude.{◌≡◌, IfOk, IfSome};
ghost use Rattle.row_defs.specs.Rows.{int, kinds_of};
ghost use Rattle.row_defs.specs.Values.{number, math as math_of, value_of};
ghost use Rattle.row_defs.specs.declared.kind.Kind.TheVariants.{Int};
ghost use Rattle.dia_item.specs.Lent.{row_in_ref};
ghost use Rattle.dia_expr.specs.Exprs.{expr_in, math_in};
ghost use Rattle.dia_expr.specs.Typing.{HasKind};
ghost use Rattle.dia_expr.specs.Nodes.{node_in, Computes};

use crate::divisor::Divisor;
use crate::evaluate::{int_column, int_made, text_column};
use crate::expr::{Comparison, Expr, Literal, Math};
use crate::math::{compared, math};
use crate::texts::number_spelled;
use dia_edge::NoMemory;
use dia_item::RowRef;
use std::alloc::Global;

/// What is computed, step by step.
#[derive(Debug, Drop)]
pub(crate) enum Node {
    /// The column with this number.
    Column(u32),
    /// A number.
    Number(u64),
    /// A number made of a column and a number.
    OfColumn(Math, u32, u64),
    /// A number made of another and a number that stands there.
    WithNumber(Math, Box<Node>, u64),
    /// The quotient.
    Quotient(Box<Node>, Divisor),
    /// The remainder.
    Remainder(Box<Node>, Divisor),
    /// How many bytes the text in the column with this number has.
    Length(u32),
    /// The number that the text in the column with this number spells; 0 where it spells none.
    Numeral(u32),
    /// 1 where a number stands so to one that stands there, else 0.
    Compared(Comparison, Box<Node>, u64),
    /// 1 where the text in the column with this number stands so to one that stands there, else 0.
    ComparedText(Comparison, u32, Literal),
    /// A number made of two.
    OfTwo(Math, Box<Node>, Box<Node>),
    /// An expression that isn't made ready.
    Other(Expr),
}

/// A node on the heap.
fn boxed(alloc: Global, node: Node) -> Result<Box<Node>, NoMemory>
    ensures { IfOk result (λ b. b.value ≡ node) }
{
    Ok(Box::new(alloc, node)?)
}

/// What makes a number of another and this one.
fn with_number(alloc: Global, op: Math, a: Node, n: u64) -> Result<Node, NoMemory>
    ensures { IfOk result (λ node. Computes (node_in node) (math_of (math_in op) (node_in a) (number n))) }
{
    match a {
        Node::Number(a) => Ok(Node::Number(math(op, a, n))),
        Node::Column(i) if op != Math::Div && op != Math::Mod => Ok(Node::OfColumn(op, i, n)),
        a => {
            let a = boxed(alloc, a)?;
            match op {
                Math::Div if n > 0 => Ok(Node::Quotient(a, Divisor::new(n))),
                Math::Mod if n > 0 => Ok(Node::Remainder(a, Divisor::new(n))),
                _ => Ok(Node::WithNumber(op, a, n)),
            }
        }
    }
}

/// What makes a number of two.
fn of_two(alloc: Global, op: Math, a: Node, b: Node) -> Result<Node, NoMemory>
    ensures { IfOk result (λ node. Computes (node_in node) (math_of (math_in op) (node_in a) (node_in b))) }
{
    match b {
        Node::Number(n) => with_number(alloc, op, a, n),
        b => Ok(Node::OfTwo(op, boxed(alloc, a)?, boxed(alloc, b)?)),
    }
}

/// What computes a number of the text in a column, where the expression is one.
fn of_text_column(expr: &Expr) -> Option<Node>
    ensures { IfSome result (λ node. node_in node ≡ expr_in expr.now) }
{
    match expr {
        Expr::Len(t) => match &**t {
            Expr::Column(i) => Some(Node::Length(*i)),
            _ => None,
        },
        Expr::Num(t) => match &**t {
            Expr::Column(i) => Some(Node::Numeral(*i)),
            _ => None,
        },
        _ => None,
    }
}

/// What computes a comparison with a number or a text that stands there, where it is one.
#[cycle(make)]
fn of_comparison(alloc: Global, expr: &Expr) -> Result<Option<Node>, NoMemory>
    ensures { IfOk result (λ made. IfSome made (λ node. Computes (node_in node) (expr_in expr.now))) }
{
    match expr {
        Expr::Compare(op, x, y) => match (&**x, &**y) {
            (x, Expr::Number(n)) => {
                let a = boxed(alloc, node_of(alloc, x)?)?;
                Ok(Some(Node::Compared(*op, a, *n)))
            }
            (Expr::Column(i), Expr::Literal(t)) => {
                let t = Literal::of(alloc, t.bytes())?;
                Ok(Some(Node::ComparedText(*op, *i, t)))
            }
            _ => Ok(None),
        },
        _ => Ok(None),
    }
}

/// What computes an expression.
#[cycle(make)]
pub(crate) fn node_of(alloc: Global, expr: &Expr) -> Result<Node, NoMemory>
    ensures { IfOk result (λ node. Computes (node_in node) (expr_in expr.now)) }
{
    match expr {
        Expr::Column(i) => Ok(Node::Column(*i)),
        Expr::Number(n) => Ok(Node::Number(*n)),
        Expr::Math(op, a, b) => {
            let a = node_of(alloc, a)?;
            let b = node_of(alloc, b)?;
            of_two(alloc, *op, a, b)
        }
        Expr::Compare(..) => match of_comparison(alloc, expr)? {
            Some(node) => Ok(node),
            None => Ok(Node::Other(expr.copy(alloc)?)),
        },
        _ => match of_text_column(expr) {
            Some(node) => Ok(node),
            None => Ok(Node::Other(expr.copy(alloc)?)),
        },
    }
}

/// The value of a node.
#[inline(always)]
#[cycle(nodes)]
pub(crate) fn node_value<'a>(node: &'a Node, row: &RowRef<'a>) -> u64
    requires { HasKind (kinds_of (row_in_ref row.now)) (node_in node.now) Int }
    ensures { value_of (node_in node.now) (row_in_ref row.now) ≡ int result }
{
    match node {
        Node::Column(i) => int_column(row, *i),
        Node::Number(n) => *n,
        Node::OfColumn(op, i, n) => math(*op, int_column(row, *i), *n),
        Node::WithNumber(op, a, n) => math(*op, operand(a, row), *n),
        Node::Quotient(a, divisor) => divisor.quotient(operand(a, row)),
        Node::Remainder(a, divisor) => divisor.remainder(operand(a, row)),
        Node::OfTwo(op, a, b) => {
            let a = operand(a, row);
            let b = operand(b, row);
            math(*op, a, b)
        }
        Node::Length(i) => text_column(row, *i).len() as u64,
        Node::Numeral(i) => number_spelled(text_column(row, *i)).unwrap_or(0),
        Node::Compared(op, a, n) => compared(*op, operand(a, row).cmp(n)),
        Node::ComparedText(op, i, t) => compared(*op, text_column(row, *i).cmp(t.bytes())),
        Node::Other(expr) => int_made(expr, row),
    }
}

/// The value of a node within another: where it is made of columns and numbers alone it takes no call.
#[inline(always)]
#[cycle(nodes)]
fn operand<'a>(node: &'a Node, row: &RowRef<'a>) -> u64
    requires { HasKind (kinds_of (row_in_ref row.now)) (node_in node.now) Int }
    ensures { value_of (node_in node.now) (row_in_ref row.now) ≡ int result }
{
    match node {
        Node::Column(i) => int_column(row, *i),
        Node::Number(n) => *n,
        Node::OfColumn(op, i, n) => math(*op, int_column(row, *i), *n),
        Node::Length(i) => text_column(row, *i).len() as u64,
        _ => operand_made(node, row),
    }
}

/// The same where it may take more.
#[inline(never)]
#[cycle(nodes)]
fn operand_made<'a>(node: &'a Node, row: &RowRef<'a>) -> u64
    requires { HasKind (kinds_of (row_in_ref row.now)) (node_in node.now) Int }
    ensures { value_of (node_in node.now) (row_in_ref row.now) ≡ int result }
{
    node_value(node, row)
}
