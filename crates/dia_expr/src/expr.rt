//! What an expression is.
ghost use Rattle.std.specs.Prelude.{◌≡◌, ◌≤◌, length, vec_items, IfOk};
ghost use Rattle.row_defs.specs.Limits.{longest_text};

use dia_edge::NoMemory;
use std::alloc::Global;

/// What is made of two numbers.
#[derive(Clone, Copy, Debug, PartialEq, Eq)]
pub enum Math {
    /// The sum modulo 2^64.
    Add,
    /// The difference modulo 2^64.
    Sub,
    /// The product modulo 2^64.
    Mul,
    /// The quotient rounded down; 0 where the divisor is 0.
    Div,
    /// The remainder; 0 where the divisor is 0.
    Mod,
    /// The smaller.
    Least,
    /// The larger.
    Most,
    /// Bit by bit.
    And,
    /// Bit by bit.
    Or,
    /// Bit by bit.
    Xor,
}

/// What is asked of two fields of one kind.
#[derive(Clone, Copy, Debug, PartialEq, Eq)]
pub enum Comparison {
    /// Whether they are equal.
    Eq,
    /// Whether the first is less than the second.
    Lt,
    /// Whether the first is at most the second.
    Le,
}

/// Which part of a text.
#[derive(Clone, Copy, Debug, PartialEq, Eq)]
pub enum Part {
    /// So many of its first bytes.
    Head,
    /// All but so many of its first bytes.
    Tail,
    /// The word with this number, counted from 0; empty where there is none.
    Word,
}

/// A text that stands in an expression.
#[derive(Debug, Drop)]
pub struct Literal {
    bytes: Vec<u8>,
    ghost short: { length bytes.items ≤ longest_text },
}

impl Literal {
    ghost use Rattle.dia_expr.specs.Exprs.{literal_bytes};

    /// A literal with these bytes.
    pub(crate) fn of(alloc: Global, bytes: &[u8]) -> Result<Literal, NoMemory>
        requires { length bytes.now ≤ longest_text }
        ensures { IfOk result (λ literal. literal_bytes literal ≡ bytes.now) }
    {
        Ok(Literal {
            bytes: Vec::from_slice(alloc, bytes)?,
        })
    }

    /// The bytes.
    pub fn bytes(&self) -> &[u8]
        ensures bytes { result.now ≡ literal_bytes self.now }
        ensures short { length result.now ≤ longest_text }
    {
        self.bytes.as_slice()
    }
}

/// An expression over the columns of a row.
#[derive(Debug, Drop)]
pub enum Expr {
    /// The column with this number, counted from 0.
    Column(u32),
    /// A number.
    Number(u64),
    /// A text.
    Literal(Literal),
    /// A number made of two.
    Math(Math, Box<Expr>, Box<Expr>),
    /// 1 where the number is 0, else 0.
    Not(Box<Expr>),
    /// 1 where two fields of one kind are so, else 0.
    Compare(Comparison, Box<Expr>, Box<Expr>),
    /// The second where the first isn't 0, else the third.
    If(Box<Expr>, Box<Expr>, Box<Expr>),
    /// How many bytes a text has.
    Len(Box<Expr>),
    /// The number that a text spells; 0 where it spells none.
    Num(Box<Expr>),
    /// A number in decimal.
    Text(Box<Expr>),
    /// A part of a text: which part, the number of bytes or of the word, and the text.
    Part(Part, Box<Expr>, Box<Expr>),
}

/// An expression on the heap.
pub(crate) fn boxed(alloc: Global, expr: Expr) -> Result<Box<Expr>, NoMemory>
    ensures { IfOk result (λ b. b.value ≡ expr) }
{
    Ok(Box::new(alloc, expr)?)
}

impl Expr {
    ghost use Rattle.dia_expr.specs.Exprs.{expr_in};

    /// The same expression.
    pub fn copy(&self, alloc: Global) -> Result<Expr, NoMemory>
        ensures { IfOk result (λ expr. expr_in expr ≡ expr_in self.now) }
    {
        match self {
            Expr::Column(i) => Ok(Expr::Column(*i)),
            Expr::Number(n) => Ok(Expr::Number(*n)),
            Expr::Literal(t) => Ok(Expr::Literal(Literal::of(alloc, t.bytes())?)),
            Expr::Math(op, a, b) => Ok(Expr::Math(
                *op,
                boxed(alloc, a.copy(alloc)?)?,
                boxed(alloc, b.copy(alloc)?)?,
            )),
            Expr::Not(a) => Ok(Expr::Not(boxed(alloc, a.copy(alloc)?)?)),
            Expr::Compare(op, x, y) => Ok(Expr::Compare(
                *op,
                boxed(alloc, x.copy(alloc)?)?,
                boxed(alloc, y.copy(alloc)?)?,
            )),
            Expr::If(c, x, y) => Ok(Expr::If(
                boxed(alloc, c.copy(alloc)?)?,
                boxed(alloc, x.copy(alloc)?)?,
                boxed(alloc, y.copy(alloc)?)?,
            )),
            Expr::Len(t) => Ok(Expr::Len(boxed(alloc, t.copy(alloc)?)?)),
            Expr::Num(t) => Ok(Expr::Num(boxed(alloc, t.copy(alloc)?)?)),
            Expr::Text(a) => Ok(Expr::Text(boxed(alloc, a.copy(alloc)?)?)),
            Expr::Part(op, a, t) => Ok(Expr::Part(
                *op,
                boxed(alloc, a.copy(alloc)?)?,
                boxed(alloc, t.copy(alloc)?)?,
            )),
        }
    }
}
