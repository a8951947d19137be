//! Reads expressions from words.
ghost use Rattle.std.specs.Prelude.{◌≡◌, ◌<◌, ◌≤◌, ◌∷◌, ◌++◌, [], OnOk, None, Some, false, IfOk, IfErr, length, map};
ghost use Rattle.std.specs.List.{list_any};
ghost use Rattle.std.specs.Option.{option_map};
ghost use Rattle.row_defs.specs.Pieces.{words_of};
ghost use Rattle.row_defs.specs.Expressions.{begins_none, is_bad_number, exprs_of, list_fault, one_fault, and_operands};
ghost use Rattle.dia_expr.specs.Exprs.{expr_in};
ghost use Rattle.dia_expr.specs.Beginnings.{form_in};
ghost use Rattle.dia_expr.specs.Reads.{words_in, IsRead, IsPairRead, IsFormRead, IsStopAt, IsListStop, IsFault};

use crate::expr::{Expr, boxed};
use crate::spelling::{Beginning, Form, beginning_of, is_bad_number};
use dia_edge::NoMemory;
use dia_text::words;
use std::alloc::{AllocFailed, Global};
use thiserror::Error;

/// Why words aren't expressions. The reading goes from the left and stops at a word that begins none, so then nothing
/// that might be missing behind it counts; a bad number doesn't stop it.
#[derive(Clone, Copy, Debug, PartialEq, Eq, Error)]
pub enum ExprErr {
    /// The words end inside an expression, or words are left behind the one that was asked for.
    #[error("the words end inside an expression, or don't end with it")]
    BadForm,
    /// A word begins no expression.
    #[error("a word begins no expression")]
    UnknownWord,
    /// A word that begins with a digit isn't 1 to 20 decimal digits below 2^64.
    #[error("a number isn't 1 to 20 decimal digits below 2^64")]
    BadNumber,
    /// There was no memory.
    #[error("no memory")]
    NoMemory,
}

impl From<NoMemory> for ExprErr {
    ghost use Rattle.dia_expr.specs.declared.read.ExprErr.TheVariants as variants;

    ghost from_gives = { λ _ e. e ≡ variants.NoMemory };

    fn from(_: NoMemory) -> ExprErr {
        ExprErr::NoMemory
    }
}

impl<T: Drop> From<AllocFailed<T>> for ExprErr {
    ghost use Rattle.dia_expr.specs.declared.read.ExprErr.TheVariants as variants;

    ghost from_gives = { λ _ e. e ≡ variants.NoMemory };

    fn from(_: AllocFailed<T>) -> ExprErr {
        ExprErr::NoMemory
    }
}

/// The expression that the words begin with, and the words behind it.
#[cycle(reading)]
fn read_first<'w, 'a>(
    alloc: Global,
    words: &'w [&'a [u8]],
) -> Result<(Box<Expr>, &'w [&'a [u8]]), ExprErr>
    ensures read { IfOk result (λ first. IsRead (words_in words.now) (expr_in first.0.value) (words_in first.1.now)) }
    ensures shorter { IfOk result (λ first. length first.1.now < length words.now) }
    ensures stop { IfErr result (λ why. IsStopAt 1 why (words_in words.now)) }
{
    let Some((word, rest)) = words.split_first() else {
        return Err(ExprErr::BadForm);
    };
    match beginning_of(alloc, word)? {
        None => Err(ExprErr::UnknownWord),
        Some(Beginning::Whole(expr)) => Ok((boxed(alloc, expr)?, rest)),
        Some(Beginning::Form(form)) => read_form(alloc, form, rest),
    }
}

/// The two expressions that the words begin with, and the words behind them.
#[cycle(reading)]
fn read_pair<'w, 'a>(
    alloc: Global,
    words: &'w [&'a [u8]],
) -> Result<(Box<Expr>, Box<Expr>, &'w [&'a [u8]]), ExprErr>
    ensures read { IfOk result (λ pair. IsPairRead (words_in words.now) (expr_in pair.0.value) (expr_in pair.1.value) (words_in pair.2.now)) }
    ensures shorter { IfOk result (λ pair. length pair.2.now ≤ length words.now) }
    ensures stop { IfErr result (λ why. IsStopAt 2 why (words_in words.now)) }
{
    let (a, rest) = read_first(alloc, words)?;
    let (b, rest) = read_first(alloc, rest)?;
    Ok((a, b, rest))
}

/// The form with the operands that the words begin with, and the words behind them.
#[cycle(reading)]
fn read_form<'w, 'a>(
    alloc: Global,
    form: Form,
    words: &'w [&'a [u8]],
) -> Result<(Box<Expr>, &'w [&'a [u8]]), ExprErr>
    ensures read { IfOk result (λ whole. IsFormRead (form_in form) (words_in words.now) (expr_in whole.0.value) (words_in whole.1.now)) }
    ensures shorter { IfOk result (λ whole. length whole.1.now ≤ length words.now) }
    ensures stop { IfErr result (λ why. IsStopAt (and_operands (form_in form) 0) why (words_in words.now)) }
{
    match form {
        Form::One(form) => {
            let (a, rest) = read_first(alloc, words)?;
            Ok((boxed(alloc, form.of(a))?, rest))
        }
        Form::Two(form) => {
            let (a, b, rest) = read_pair(alloc, words)?;
            Ok((boxed(alloc, form.of(a, b))?, rest))
        }
        Form::If => {
            let (c, rest) = read_first(alloc, words)?;
            let (x, y, rest) = read_pair(alloc, rest)?;
            Ok((boxed(alloc, Expr::If(c, x, y))?, rest))
        }
    }
}

/// Whether a word begins with a digit and spells no number.
fn has_bad_number(words: &[&[u8]]) -> bool
    ensures { result ≡ list_any is_bad_number (words_in words.now) }
{
    for word in words {
        if is_bad_number(word) {
            return true;
        }
    }
    false
}

/// Puts the expressions that the words are behind those that were read. A bad number counts as 0.
fn read_onto(alloc: Global, words: &[&[u8]], exprs: &mut Vec<Expr>) -> Result<(), ExprErr>
    ensures read { OnOk result (option_map (λ more. map expr_in exprs.old.items ++ more) (exprs_of (words_in words.now)) ≡ Some (map expr_in exprs.new.items)) }
    ensures known { OnOk result (list_any begins_none (words_in words.now) ≡ false) }
    ensures stop { IfErr result (λ why. IsListStop why (words_in words.now)) }
{
    if words.is_empty() {
        return Ok(());
    }
    let (expr, rest) = read_first(alloc, words)?;
    exprs.push(Box::into_inner(expr))?;
    read_onto(alloc, rest, exprs)
}

/// The expressions that the words are, one after the other; none where there are no words. Of several refusals the one
/// that comes first is `BadForm` or `UnknownWord`, of which only one can be, and then `BadNumber`.
pub fn read_words(alloc: Global, words: &[&[u8]]) -> Result<Vec<Expr>, ExprErr>
    ensures exprs { IfOk result (λ exprs. exprs_of (words_in words.now) ≡ Some (map expr_in exprs.items)) }
    ensures ok { IfOk result (λ _. list_fault (words_in words.now) ≡ None) }
    ensures err { IfErr result (λ why. IsFault why (list_fault (words_in words.now))) }
{
    let mut exprs = Vec::new(alloc);
    read_onto(alloc, words, &mut exprs)?;
    if has_bad_number(words) {
        return Err(ExprErr::BadNumber);
    }
    Ok(exprs)
}

/// The one expression that the words are. Words that are left behind it are `BadForm`, whatever they are.
pub fn read_one(alloc: Global, words: &[&[u8]]) -> Result<Expr, ExprErr>
    ensures expr { IfOk result (λ expr. exprs_of (words_in words.now) ≡ Some (expr_in expr ∷ [])) }
    ensures ok { IfOk result (λ _. one_fault (words_in words.now) ≡ None) }
    ensures err { IfErr result (λ why. IsFault why (one_fault (words_in words.now))) }
{
    let (expr, rest) = read_first(alloc, words)?;
    if !rest.is_empty() {
        return Err(ExprErr::BadForm);
    }
    if has_bad_number(words) {
        return Err(ExprErr::BadNumber);
    }
    Ok(Box::into_inner(expr))
}

/// The expressions that a text is, as `read_words` reads its words, which are parted by one or more spaces. A literal
/// of more than 65,536 bytes begins no expression, since it would be no text.
pub fn read_exprs(alloc: Global, text: &[u8]) -> Result<Vec<Expr>, ExprErr>
    ensures exprs { IfOk result (λ exprs. exprs_of (words_of text.now) ≡ Some (map expr_in exprs.items)) }
    ensures ok { IfOk result (λ _. list_fault (words_of text.now) ≡ None) }
    ensures err { IfErr result (λ why. IsFault why (list_fault (words_of text.now))) }
{
    let words = words(alloc, text)?;
    read_words(alloc, words.as_slice())
}
