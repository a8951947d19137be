//! Why a line is refused.
ghost use Rattle.std.specs.Prelude.{◌≡◌, true, None, Some, is_none, length, map, slice_get, codes, nat_lt, ◌||◌, not};
ghost use Rattle.std.specs.List.{list_all, list_any};
ghost use Rattle.std.specs.Option.{option_map};
ghost use Rattle.row_defs.specs.Values.{expr_kind, lacks_column};
ghost use Rattle.script_defs.specs.Reading.{number_word, column_word, exprs_in, exprs_fault, is_printable, is_bad_form, is_unknown_word, is_bad_number, has_bad_name, has_bad_bytes, fits_count, has_bad_words, has_unknown_name, has_taken_name, has_unknown_word, is_outside, is_no_number, has_bad_number, is_no_column, lack_columns, has_bad_column, is_kind, is_other_kind, is_one_int, have_no_kinds, has_bad_kind, first_cause, tests_of, tests_of_unknown, earlier_named, operands_in, operand_kinds};
ghost use Rattle.dia_expr.specs.Exprs.{expr_in};
ghost use Rattle.dia_item.specs.KindList.{kind_list};
ghost use Rattle.script_read.specs.Knowing.{known_in, earlier_at, kind_at, kinds_at};
ghost use Rattle.script_read.specs.Sentences.{sentence_in, words_in, bytes_in};

use crate::exprs::Exprs;
use crate::known::{Earlier, Known};
use crate::names::{is_name, is_printable};
use crate::numbers::value_in;
use crate::places::{column_word, number_word, operand_words};
use crate::sentence::Sentence;
use dia_expr::{Expr, KindErr, kind_of, number_spelled};
use dia_item::Kinds;
use row_defs::{Cause, Kind};
use script_defs::{ColumnPlace, ExprPlace, NumberPlace, Shape};

fn has_bad_name(s: &Sentence<'_, '_>) -> bool
    ensures { result ≡ has_bad_name (sentence_in s.now).defines (sentence_in s.now).word }
{
    match s.defines {
        None => false,
        Some(name) => !is_name(name) || s.word.is_empty(),
    }
}

/// Whether the line has a byte that none may have, or a name that is none.
fn has_bad_bytes(line: &[u8], s: &Sentence<'_, '_>) -> bool
    ensures { result ≡ has_bad_bytes line.now (sentence_in s.now) }
{
    !is_printable(line) || has_bad_name(s)
}

fn fits_count(shape: &Shape, args: &[&[u8]]) -> bool
    ensures { result ≡ fits_count shape.now (words_in args.now) }
{
    let count = args.len();
    shape.least <= count
        && match shape.most {
            None => true,
            Some(most) => count <= most,
        }
}

/// Whether the words behind the word don't fit it: there are too few or too many, or they end inside an expression.
fn has_bad_words(shape: &Shape, args: &[&[u8]], exprs: &Exprs) -> bool
    requires { exprs.now.fault ≡ exprs_fault shape.now.exprs (words_in args.now) }
    ensures { result ≡ has_bad_words shape.now (words_in args.now) }
{
    !fits_count(shape, args) || matches!(exprs.fault, Some(Cause::BadForm))
}

fn is_any_unknown(known: &Known, names: &[&[u8]]) -> bool
    ensures { result ≡ list_any (λ w. is_none (earlier_named (known_in known.now) w)) (words_in names.now) }
{
    for name in names {
        if known.named(name).is_none() {
            return true;
        }
    }
    false
}

fn has_unknown_name(known: &Known, shape: &Shape, args: &[&[u8]]) -> bool
    ensures { result ≡ has_unknown_name (known_in known.now) shape.now (words_in args.now) }
{
    is_any_unknown(known, operand_words(shape, args))
}

fn has_taken_name(known: &Known, s: &Sentence<'_, '_>) -> bool
    ensures { result ≡ has_taken_name (known_in known.now) (sentence_in s.now).defines }
{
    match s.defines {
        None => false,
        Some(name) => known.named(name).is_some(),
    }
}

fn has_unknown_word(shape: &Shape, args: &[&[u8]], exprs: &Exprs) -> bool
    requires { exprs.now.fault ≡ exprs_fault shape.now.exprs (words_in args.now) }
    ensures { result ≡ has_unknown_word shape.now (words_in args.now) }
{
    !shape.is_selected || matches!(exprs.fault, Some(Cause::UnknownWord))
}

/// Whether the word in a number's place spells none, or one outside its range.
fn is_outside(number: Option<NumberPlace>, args: &[&[u8]]) -> bool
    ensures { result ≡ is_outside number (number_word number (words_in args.now)) }
{
    match (number, number_word(number, args)) {
        (Some(range), Some(numeral)) => match number_spelled(numeral) {
            None => true,
            Some(n) => !(range.least <= n && n <= range.most),
        },
        _ => false,
    }
}

/// Whether the word in a column's place spells no number.
fn is_no_number(numeral: Option<&[u8]>) -> bool
    ensures { result ≡ is_no_number (option_map bytes_in numeral.entry) }
{
    match numeral {
        None => false,
        Some(numeral) => number_spelled(numeral).is_none(),
    }
}

fn has_bad_number(shape: &Shape, args: &[&[u8]], exprs: &Exprs) -> bool
    requires { exprs.now.fault ≡ exprs_fault shape.now.exprs (words_in args.now) }
    ensures { result ≡ has_bad_number shape.now (words_in args.now) }
{
    is_outside(shape.number, args)
        || is_no_number(column_word(shape.column, args))
        || matches!(exprs.fault, Some(Cause::BadNumber))
}

/// Whether the word in a column's place is none of so many columns.
fn is_no_column(kinds: &Kinds, column: Option<&[u8]>) -> bool
    ensures { result ≡ is_no_column (kind_list kinds.now) (option_map bytes_in column.entry) }
{
    match column {
        None => false,
        Some(_) => kinds.list().len() as u64 <= value_in(column),
    }
}

fn lacks_column(kinds: &Kinds, expr: &Expr) -> bool
    ensures { result ≡ lacks_column (length (kind_list kinds.now)) (expr_in expr.now) }
{
    matches!(kind_of(expr, kinds), Err(KindErr::BadColumn))
}

fn lack_columns(kinds: &Kinds, exprs: &[Expr]) -> bool
    ensures { result ≡ lack_columns (kind_list kinds.now) (map expr_in exprs.now) }
{
    for expr in exprs {
        if lacks_column(kinds, expr) {
            return true;
        }
    }
    false
}

fn has_bad_column(kinds: Option<&Kinds>, shape: &Shape, args: &[&[u8]], exprs: &[Expr]) -> bool
    requires { map expr_in exprs.now ≡ exprs_in shape.now.exprs (words_in args.now) }
    ensures { result ≡ has_bad_column (option_map kinds_at kinds.entry) shape.now (words_in args.now) }
{
    match kinds {
        None => false,
        Some(kinds) => {
            is_no_column(kinds, column_word(shape.column, args)) || lack_columns(kinds, exprs)
        }
    }
}

fn is_kind(kind: Kind, of: Option<&Kind>) -> bool
    ensures { result ≡ is_kind kind (option_map kind_at of.entry) }
{
    match of {
        None => false,
        Some(of) => *of == kind,
    }
}

/// Whether the column isn't of the kind that its place asks for.
fn is_other_kind(place: Option<ColumnPlace>, kinds: &Kinds, column: Option<&[u8]>) -> bool
    ensures { result ≡ is_other_kind place (kind_list kinds.now) (option_map bytes_in column.entry) }
{
    match (place, column) {
        (Some(place), Some(_)) => {
            !is_kind(place.kind, kinds.list().get(value_in(column) as usize))
        }
        _ => false,
    }
}

fn has_no_kind(kinds: &Kinds, expr: &Expr) -> bool
    ensures { result ≡ is_none (expr_kind (kind_list kinds.now) (expr_in expr.now)) }
{
    kind_of(expr, kinds).is_err()
}

fn is_any_without_kind(kinds: &Kinds, exprs: &[Expr]) -> bool
    ensures { result ≡ list_any (λ e. is_none (expr_kind (kind_list kinds.now) e)) (map expr_in exprs.now) }
{
    for expr in exprs {
        if has_no_kind(kinds, expr) {
            return true;
        }
    }
    false
}

fn is_one_int(kinds: &Kinds, exprs: &[Expr]) -> bool
    ensures { result ≡ is_one_int (kind_list kinds.now) (map expr_in exprs.now) }
{
    match exprs {
        [expr] => matches!(kind_of(expr, kinds), Ok(Kind::Int)),
        _ => false,
    }
}

/// Whether the expressions haven't the kinds that their place asks for.
fn have_no_kinds(place: ExprPlace, kinds: &Kinds, exprs: &[Expr]) -> bool
    ensures { result ≡ have_no_kinds place (kind_list kinds.now) (map expr_in exprs.now) }
{
    match place {
        ExprPlace::Test(_) => !is_one_int(kinds, exprs),
        ExprPlace::Nowhere | ExprPlace::List(_) => is_any_without_kind(kinds, exprs),
    }
}

fn has_bad_kind(kinds: Option<&Kinds>, shape: &Shape, args: &[&[u8]], exprs: &[Expr]) -> bool
    requires { map expr_in exprs.now ≡ exprs_in shape.now.exprs (words_in args.now) }
    ensures { result ≡ has_bad_kind (option_map kinds_at kinds.entry) shape.now (words_in args.now) }
{
    match kinds {
        None => false,
        Some(kinds) => {
            is_other_kind(shape.column, kinds, column_word(shape.column, args))
                || have_no_kinds(shape.exprs, kinds, exprs)
        }
    }
}

/// The kinds of the first operand's rows.
fn operand_kinds<'k>(operands: &[&'k Earlier]) -> Option<&'k Kinds>
    ensures { option_map kinds_at result ≡ operand_kinds (map earlier_at operands.now) }
{
    match operands.first() {
        None => None,
        Some(operand) => Some(&operand.kinds),
    }
}

/// The first cause that applies to a line whose word has this shape, but for the number of columns of its rows.
pub(crate) fn cause_of(
    known: &Known,
    line: &[u8],
    s: &Sentence<'_, '_>,
    shape: &Shape,
    operands: &[&Earlier],
    exprs: &Exprs,
) -> Option<Cause>
    requires operands { map earlier_at operands.now ≡ operands_in (known_in known.now) shape.now (sentence_in s.now).args }
    requires fault { exprs.now.fault ≡ exprs_fault shape.now.exprs (sentence_in s.now).args }
    requires list { map expr_in exprs.now.list.items ≡ exprs_in shape.now.exprs (sentence_in s.now).args }
    ensures { result ≡ first_cause (tests_of (known_in known.now) line.now (sentence_in s.now) shape.now) }
{
    let kinds = operand_kinds(operands);
    let list = exprs.list.as_slice();
    if has_bad_bytes(line, s) || has_bad_words(shape, s.args, exprs) {
        Some(Cause::BadForm)
    } else if has_unknown_name(known, shape, s.args) {
        Some(Cause::UnknownName)
    } else if has_taken_name(known, s) {
        Some(Cause::NameTaken)
    } else if has_unknown_word(shape, s.args, exprs) {
        Some(Cause::UnknownWord)
    } else if has_bad_number(shape, s.args, exprs) {
        Some(Cause::BadNumber)
    } else if has_bad_column(kinds, shape, s.args, list) {
        Some(Cause::BadColumn)
    } else if has_bad_kind(kinds, shape, s.args, list) {
        Some(Cause::BadKind)
    } else {
        None
    }
}

/// The first cause that applies to a line whose word isn't known.
pub(crate) fn cause_of_unknown(known: &Known, line: &[u8], s: &Sentence<'_, '_>) -> Cause
    ensures { Some result ≡ first_cause (tests_of_unknown (known_in known.now) line.now (sentence_in s.now)) }
{
    if has_bad_bytes(line, s) {
        Cause::BadForm
    } else if has_taken_name(known, s) {
        Cause::NameTaken
    } else {
        Cause::UnknownWord
    }
}
