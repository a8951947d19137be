//! Reads one line.
ghost use Rattle.std.specs.Prelude.{◌≡◌, ◌<◌, ◌^◌, [], true, false, None, Some, IsSome, ℕ, List, is_none, length, map, IfOk, unwrap_or};
ghost use Rattle.std.specs.List.{list_all};
ghost use Rattle.std.specs.Option.{option_map};
ghost use Rattle.row_defs.specs.LocalOps.{filter_op};
ghost use Rattle.script_defs.specs.Scripts.{local_form, statement_kinds};
ghost use Rattle.script_defs.specs.Stating.{statement_of, first_operand, first_expr, op_selected};
ghost use Rattle.script_defs.specs.Reading.{is_printable, line_reading, said_of, selector_in, is_no_column, has_bad_column, operand_kinds, exprs_in, kinds_among, numbers_among, within_columns, reading_of_word, reading_of_parts, value_in, column_word, number_word};
ghost use Rattle.dia_expr.specs.Exprs.{expr_in};
ghost use Rattle.dia_item.specs.KindList.{kind_list};
ghost use Rattle.script_read.specs.Knowing.{known_in, earlier_at};
ghost use Rattle.script_read.specs.Sentences.{sentence_in, words_in, bytes_in};
ghost use Rattle.script_read.specs.Statements.{form_in};
ghost use Rattle.script_read.specs.Accepting.{IsStatable, AreTexts, CanTellStated, stated_as, line_read_in};

use crate::causes::{cause_of, cause_of_unknown};
use crate::exprs::read_exprs;
use crate::known::{Earlier, Known};
use crate::line_kinds::kinds_of_form;
use crate::numbers::value_in;
use crate::places::{
    column_word, first_word, number_word, operand_words, selector_in, shape_in, word_of,
};
use crate::sentence::{Sentence, is_skipped, parts_of};
use crate::statement::{Action, Form};
use dia_edge::{Name, NoMemory};
use dia_expr::Expr;
use dia_item::Kinds;
use dia_text::words;
use row_defs::Cause;
use row_defs::limits::MOST_COLUMNS;
use script_defs::limits::LINE_LIMIT;
use script_defs::{Selector, Shape, Word};
use std::alloc::Global;

/// What a line reads as.
#[derive(Drop)]
pub(crate) enum LineRead {
    Skipped,
    Refused(Cause),
    Line {
        name: Name,
        form: Form,
        kinds: Kinds,
    },
    Act(Action),
}

/// What a line states, beside its name.
#[derive(Drop)]
pub(crate) enum Stated {
    Line(Form),
    Act(Action),
}

/// A name with these bytes.
fn name_of(alloc: Global, word: &[u8]) -> Result<Name, NoMemory>
    requires { list_all is_printable word.now ≡ true }
    ensures { IfOk result (λ name. name ≡ word.now) }
{
    match str::from_utf8(word) {
        Ok(text) => Name::of(alloc, text),
        Err(_) => unreachable!(),
    }
}

/// The number of the first operand's line.
fn first_number(operands: &[&Earlier]) -> u32
    ensures { result ≡ first_operand (numbers_among (map earlier_at operands.now)) }
{
    match operands.first() {
        None => 0,
        Some(operand) => operand.number,
    }
}

/// The column of the operand that stands in its place.
fn column_of(shape: &Shape, args: &[&[u8]], operands: &[&Earlier]) -> u32
    requires some { 0 < length operands.now }
    requires columns { has_bad_column (operand_kinds (map earlier_at operands.now)) shape.now (words_in args.now) ≡ false }
    ensures { result ≡ value_in (column_word shape.now.column (words_in args.now)) }
{
    match operands.first() {
        None => unreachable!(),
        Some(operand) => column_among(&operand.kinds, column_word(shape.column, args)),
    }
}

/// The number of a column that is one of these.
fn column_among(kinds: &Kinds, column: Option<&[u8]>) -> u32
    requires { is_no_column (kind_list kinds.now) (option_map bytes_in column) ≡ false }
    ensures { result ≡ value_in (option_map bytes_in column.entry) }
{
    prove!(kinds.list().len() <= MOST_COLUMNS);
    value_in(column) as u32
}

fn filter_of(of: u32, exprs: Vec<Expr>) -> Form
    ensures { form_in result ≡ local_form of (filter_op (first_expr (map expr_in exprs.items))) }
{
    let test = match exprs.into_iter().next() {
        None => Expr::Number(0),
        Some(test) => test,
    };
    Form::Filter { of, test }
}

fn flat_map_of(of: u32, shape: &Shape, args: &[&[u8]], operands: &[&Earlier]) -> Form
    requires some { 0 < length operands.now }
    requires columns { has_bad_column (operand_kinds (map earlier_at operands.now)) shape.now (words_in args.now) ≡ false }
    requires numbers { value_in (number_word shape.now.number (words_in args.now)) < 2 ^ 32 }
    ensures { form_in result ≡ local_form of (op_selected (selector_in (words_in args.now)) (value_in (column_word shape.now.column (words_in args.now)))
        (value_in (number_word shape.now.number (words_in args.now)))) }
{
    let column = column_of(shape, args, operands);
    match selector_in(args) {
        Some(Selector::Spread) => Form::Spread {
            of,
            column,
            count: value_in(number_word(shape.number, args)) as u32,
        },
        Some(Selector::Words) | None => Form::Words { of, column },
    }
}

/// What a line for which no cause applies states.
fn state(
    alloc: Global,
    word: Word,
    shape: &Shape,
    args: &[&[u8]],
    operands: &[&Earlier],
    exprs: Vec<Expr>,
) -> Result<Stated, NoMemory>
    requires texts { list_all (list_all is_printable) (words_in args.now) ≡ true }
    requires fits { IsStatable word (map earlier_at operands.now) shape.now (words_in args.now) }
    requires exprs { map expr_in exprs.items ≡ exprs_in shape.now.exprs (words_in args.now) }
    ensures { IfOk result (λ stated. (name : List ℕ) → stated_as name stated ≡ statement_of name word (said_of (map earlier_at operands.now) shape.now (words_in args.now))) }
{
    let of = first_number(operands);
    match word {
        Word::Lines => Ok(Stated::Line(Form::Lines {
            input: name_of(alloc, first_word(args))?,
        })),
        Word::Generate => Ok(Stated::Line(Form::Generate {
            count: value_in(number_word(shape.number, args)),
        })),
        Word::Map => Ok(Stated::Line(Form::Map { of, exprs })),
        Word::Filter => Ok(Stated::Line(filter_of(of, exprs))),
        Word::FlatMap => Ok(Stated::Line(flat_map_of(of, shape, args, operands))),
        Word::Cache => Ok(Stated::Line(Form::Cache { of })),
        Word::Print => Ok(Stated::Act(Action::Print { of })),
        Word::Size => Ok(Stated::Act(Action::Size { of })),
        Word::Sum => Ok(Stated::Act(Action::Sum {
            of,
            column: column_of(shape, args, operands),
        })),
    }
}

/// A line with the name that it defines, or an action.
fn line_read(
    alloc: Global,
    s: &Sentence<'_, '_>,
    stated: Stated,
    operands: &[&Earlier],
) -> Result<LineRead, NoMemory>
    requires texts { AreTexts (sentence_in s.now).defines (sentence_in s.now).args }
    requires tells { CanTellStated (kinds_among (map earlier_at operands.now)) stated }
    ensures { IfOk result (λ read. line_read_in read ≡ within_columns (stated_as (unwrap_or (sentence_in s.now).defines []) stated)
        (statement_kinds (kinds_among (map earlier_at operands.now)) (stated_as (unwrap_or (sentence_in s.now).defines []) stated))) }
{
    match stated {
        Stated::Act(action) => Ok(LineRead::Act(action)),
        Stated::Line(form) => {
            let kinds = kinds_of_form(alloc, &form, operands)?;
            match Kinds::new(kinds.as_slice()) {
                None => Ok(LineRead::Refused(Cause::TooManyColumns)),
                Some(kinds) => Ok(LineRead::Line {
                    name: name_of(alloc, s.defines.unwrap_or(b""))?,
                    form,
                    kinds,
                }),
            }
        }
    }
}

/// Reads a line whose word is known.
fn read_word(
    alloc: Global,
    known: &Known,
    line: &[u8],
    s: &Sentence<'_, '_>,
    word: Word,
) -> Result<LineRead, NoMemory>
    requires { list_all is_printable line.now ≡ true → AreTexts (sentence_in s.now).defines (sentence_in s.now).args }
    ensures { IfOk result (λ read. line_read_in read ≡ reading_of_word (known_in known.now) line.now (sentence_in s.now) (Some word)) }
{
    let shape = shape_in(word, s.args);
    let operands = known.operands(alloc, operand_words(&shape, s.args))?;
    let exprs = read_exprs(alloc, shape.exprs, s.args)?;
    let operands = operands.as_slice();
    match cause_of(known, line, s, &shape, operands, &exprs) {
        Some(cause) => Ok(LineRead::Refused(cause)),
        None => {
            let stated = state(alloc, word, &shape, s.args, operands, exprs.list)?;
            line_read(alloc, s, stated, operands)
        }
    }
}

fn read_sentence(
    alloc: Global,
    known: &Known,
    line: &[u8],
    s: &Sentence<'_, '_>,
) -> Result<LineRead, NoMemory>
    requires { list_all is_printable line.now ≡ true → AreTexts (sentence_in s.now).defines (sentence_in s.now).args }
    ensures { IfOk result (λ read. line_read_in read ≡ reading_of_parts (known_in known.now) line.now (sentence_in s.now)) }
{
    match word_of(s) {
        None => Ok(LineRead::Refused(cause_of_unknown(known, line, s))),
        Some(word) => read_word(alloc, known, line, s, word),
    }
}

/// What a line reads as.
#[tactic(auto, unfolding(script_defs::specs::Reading::line_reading))]
pub(crate) fn read_line(alloc: Global, known: &Known, line: &[u8]) -> Result<LineRead, NoMemory>
    ensures { IfOk result (λ read. line_read_in read ≡ line_reading (known_in known.now) line.now) }
{
    if line.len() > LINE_LIMIT {
        return Ok(LineRead::Refused(Cause::LineLong));
    }
    let words = words(alloc, line)?;
    if is_skipped(words.as_slice()) {
        return Ok(LineRead::Skipped);
    }
    read_sentence(alloc, known, line, &parts_of(words.as_slice()))
}
