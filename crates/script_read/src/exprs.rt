//! The expressions of a line.
ghost use Rattle.std.specs.Prelude.{◌≡◌, None, Some, map, [], IfOk, IfErr};
ghost use Rattle.row_defs.specs.Expressions.{exprs_of, one_fault};
ghost use Rattle.script_defs.specs.Reading.{expr_words, exprs_fault, exprs_in};
ghost use Rattle.dia_expr.specs.Exprs.{expr_in};
ghost use Rattle.dia_expr.specs.Reads.{IsFault};
ghost use Rattle.script_read.specs.Sentences.{words_in};

use crate::places::expr_words;
use dia_edge::NoMemory;
use dia_expr::{Expr, ExprErr, read_one, read_words};
use row_defs::Cause;
use script_defs::ExprPlace;
use std::alloc::Global;

/// The expressions of a line; none, and the cause, where their words are refused.
#[derive(Drop)]
pub(crate) struct Exprs {
    pub list: Vec<Expr>,
    pub fault: Option<Cause>,
}

impl Exprs {
    fn refused(alloc: Global, cause: Cause) -> Exprs
        ensures list { result.list.items ≡ [] }
        ensures fault { result.fault ≡ Some cause }
    {
        Exprs {
            list: Vec::new(alloc),
            fault: Some(cause),
        }
    }
}

/// A list of the one expression that the words are.
fn read_single(alloc: Global, words: &[&[u8]]) -> Result<Vec<Expr>, ExprErr>
    ensures exprs { IfOk result (λ exprs. exprs_of (words_in words.now) ≡ Some (map expr_in exprs.items)) }
    ensures ok { IfOk result (λ _. one_fault (words_in words.now) ≡ None) }
    ensures err { IfErr result (λ why. IsFault why (one_fault (words_in words.now))) }
{
    let mut exprs = Vec::new(alloc);
    exprs.push(read_one(alloc, words)?)?;
    Ok(exprs)
}

/// The expressions in their place, read as it asks for them.
#[tactic(auto, unfolding(row_defs::specs::Expressions::exprs_of))]
fn read_list(alloc: Global, place: ExprPlace, args: &[&[u8]]) -> Result<Vec<Expr>, ExprErr>
    ensures exprs { IfOk result (λ exprs. exprs_of (expr_words place (words_in args.now)) ≡ Some (map expr_in exprs.items)) }
    ensures ok { IfOk result (λ _. exprs_fault place (words_in args.now) ≡ None) }
    ensures err { IfErr result (λ why. IsFault why (exprs_fault place (words_in args.now))) }
{
    match place {
        ExprPlace::Nowhere => Ok(Vec::new(alloc)),
        ExprPlace::Test(_) => read_single(alloc, expr_words(place, args)),
        ExprPlace::List(_) => read_words(alloc, expr_words(place, args)),
    }
}

/// The expressions behind the statement or action word.
pub(crate) fn read_exprs(alloc: Global, place: ExprPlace, args: &[&[u8]]) -> Result<Exprs, NoMemory>
    ensures list { IfOk result (λ exprs. map expr_in exprs.list.items ≡ exprs_in place (words_in args.now)) }
    ensures fault { IfOk result (λ exprs. exprs.fault ≡ exprs_fault place (words_in args.now)) }
{
    match read_list(alloc, place, args) {
        Ok(list) => Ok(Exprs { list, fault: None }),
        Err(ExprErr::BadForm) => Ok(Exprs::refused(alloc, Cause::BadForm)),
        Err(ExprErr::UnknownWord) => Ok(Exprs::refused(alloc, Cause::UnknownWord)),
        Err(ExprErr::BadNumber) => Ok(Exprs::refused(alloc, Cause::BadNumber)),
        Err(ExprErr::NoMemory) => Err(NoMemory),
    }
}
