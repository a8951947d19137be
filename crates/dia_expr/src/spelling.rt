//! What a word of an expression begins.
ghost use Rattle.std.specs.Prelude.{◌≡◌, IfOk};
ghost use Rattle.std.specs.Option.{option_map};
ghost use Rattle.row_defs.specs.Expressions.{math_word, comparison_word, part_word, other_word, form_word, leaf_word, beginning_of, is_bad_number};
ghost use Rattle.dia_expr.specs.Exprs.{expr_in, math_in, comparison_in, part_in};
ghost use Rattle.dia_expr.specs.Beginnings.{one_in, two_in, form_in, beginning_in};

use crate::expr::{Comparison, Expr, Literal, Math, Part};
use crate::texts::number_spelled;
use dia_edge::NoMemory;
use row_defs::limits::LONGEST_TEXT;
use std::alloc::Global;

/// A form with one operand.
#[derive(Clone, Copy)]
pub(crate) enum One {
    Not,
    Len,
    Num,
    Text,
}

/// A form with two operands.
#[derive(Clone, Copy)]
pub(crate) enum Two {
    Math(Math),
    Compare(Comparison),
    Part(Part),
}

/// A form by the number of its operands.
#[derive(Clone, Copy)]
pub(crate) enum Form {
    One(One),
    Two(Two),
    If,
}

/// What a word begins.
#[derive(Drop)]
pub(crate) enum Beginning {
    Whole(Expr),
    Form(Form),
}

impl One {
    ghost use Rattle.std.specs.Prelude.{◌≡◌};
    ghost use Rattle.dia_expr.specs.Exprs.{expr_in};
    ghost use Rattle.dia_expr.specs.Beginnings.{one_in};

    /// The form with its operand.
    pub(crate) fn of(self, a: Box<Expr>) -> Expr
        ensures { expr_in result ≡ one_in self (expr_in a.value) }
    {
        match self {
            One::Not => Expr::Not(a),
            One::Len => Expr::Len(a),
            One::Num => Expr::Num(a),
            One::Text => Expr::Text(a),
        }
    }
}

impl Two {
    ghost use Rattle.std.specs.Prelude.{◌≡◌};
    ghost use Rattle.dia_expr.specs.Exprs.{expr_in};
    ghost use Rattle.dia_expr.specs.Beginnings.{two_in};

    /// The form with its operands.
    pub(crate) fn of(self, a: Box<Expr>, b: Box<Expr>) -> Expr
        ensures { expr_in result ≡ two_in self (expr_in a.value) (expr_in b.value) }
    {
        match self {
            Two::Math(op) => Expr::Math(op, a, b),
            Two::Compare(op) => Expr::Compare(op, a, b),
            Two::Part(op) => Expr::Part(op, a, b),
        }
    }
}

fn math_word(word: &[u8]) -> Option<Math>
    ensures { option_map math_in result ≡ math_word word.now }
{
    match word {
        b"add" => Some(Math::Add),
        b"sub" => Some(Math::Sub),
        b"mul" => Some(Math::Mul),
        b"div" => Some(Math::Div),
        b"mod" => Some(Math::Mod),
        b"least" => Some(Math::Least),
        b"most" => Some(Math::Most),
        b"and" => Some(Math::And),
        b"or" => Some(Math::Or),
        b"xor" => Some(Math::Xor),
        _ => None,
    }
}

fn comparison_word(word: &[u8]) -> Option<Comparison>
    ensures { option_map comparison_in result ≡ comparison_word word.now }
{
    match word {
        b"eq" => Some(Comparison::Eq),
        b"lt" => Some(Comparison::Lt),
        b"le" => Some(Comparison::Le),
        _ => None,
    }
}

fn part_word(word: &[u8]) -> Option<Part>
    ensures { option_map part_in result ≡ part_word word.now }
{
    match word {
        b"head" => Some(Part::Head),
        b"tail" => Some(Part::Tail),
        b"word" => Some(Part::Word),
        _ => None,
    }
}

fn other_word(word: &[u8]) -> Option<Form>
    ensures { option_map form_in result ≡ other_word word.now }
{
    match word {
        b"not" => Some(Form::One(One::Not)),
        b"len" => Some(Form::One(One::Len)),
        b"num" => Some(Form::One(One::Num)),
        b"text" => Some(Form::One(One::Text)),
        b"if" => Some(Form::If),
        _ => None,
    }
}

/// The form with this name.
fn form_word(word: &[u8]) -> Option<Form>
    ensures { option_map form_in result ≡ form_word word.now }
{
    if let Some(op) = math_word(word) {
        return Some(Form::Two(Two::Math(op)));
    }
    if let Some(op) = comparison_word(word) {
        return Some(Form::Two(Two::Compare(op)));
    }
    if let Some(op) = part_word(word) {
        return Some(Form::Two(Two::Part(op)));
    }
    other_word(word)
}

/// The column, number or literal that a word spells.
fn leaf_word(alloc: Global, word: &[u8]) -> Result<Option<Expr>, NoMemory>
    ensures { IfOk result (λ leaf. option_map expr_in leaf ≡ leaf_word word.now) }
{
    match word {
        [b'\'', rest @ ..] if rest.len() <= LONGEST_TEXT => {
            Ok(Some(Expr::Literal(Literal::of(alloc, rest)?)))
        }
        [b'0'..=b'9', ..] => Ok(Some(Expr::Number(number_spelled(word).unwrap_or(0)))),
        [b'f', digit @ b'0'..=b'9'] => Ok(Some(Expr::Column(u32::from(*digit - b'0')))),
        _ => Ok(None),
    }
}

/// What a word begins; None where it begins no expression.
pub(crate) fn beginning_of(alloc: Global, word: &[u8]) -> Result<Option<Beginning>, NoMemory>
    ensures { IfOk result (λ beginning. option_map beginning_in beginning ≡ beginning_of word.now) }
{
    match leaf_word(alloc, word)? {
        Some(expr) => Ok(Some(Beginning::Whole(expr))),
        None => Ok(form_word(word).map(Beginning::Form)),
    }
}

/// Whether a word begins with a digit and spells no number.
pub(crate) fn is_bad_number(word: &[u8]) -> bool
    ensures { result ≡ is_bad_number word.now }
{
    match word {
        [b'0'..=b'9', ..] => number_spelled(word).is_none(),
        _ => false,
    }
}
