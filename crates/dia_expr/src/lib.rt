//! Expressions: how they are spelled, their kinds, and their values on a row.
//!
//! Contracts see an `Expr` as the expression of the definitions, `expr_in` of `specs/Exprs.antt`. The layers above rely
//! on these facts: `read_words` and its kin answer the expressions that the words are, or the first refusal from the
//! left, as `Expressions` of the definitions says; `kind_of` answers the kind, or why there is none; `eval` and
//! `eval_int` give the value, as `Values` says, and take no memory; `eval_ref` and `eval_int_ref` are the same of a row
//! that stays where it is, so that none is copied; a `Formula` is an expression made ready for many rows, of which
//! `formula_in` of `specs/Formulas.antt` is the expression, and `value` gives the value; `split_word` cuts a text's first word off; `number_spelled` reads
//! a number. `specs/Laws.antt` has what follows for every expression. Reading, evaluation and drop recurse as deep as an
//! expression is nested.
#![tactic(auto)]

mod divisor;
mod evaluate;
mod expr;
mod formula;
mod kinds;
mod laws;
mod math;
mod node;
mod read;
mod spelling;
mod texts;

pub use evaluate::{eval, eval_int, eval_int_ref, eval_ref};
pub use expr::{Comparison, Expr, Literal, Math, Part};
pub use formula::Formula;
pub use kinds::{KindErr, is_numeric, kind_of};
pub use laws::{an_expression_is_read_again, expressions_are_read_again, values_have_their_kinds};
pub use read::{ExprErr, read_exprs, read_one, read_words};
pub use texts::{number_spelled, split_word};
