//! What stands in the places of a line.
ghost use Rattle.std.specs.Prelude.{◌≡◌, [], drop, take, slice_get, unwrap_or};
ghost use Rattle.std.specs.Option.{option_map};
ghost use Rattle.script_defs.specs.Reading.{word_in, selector_of, selector_in, shape_in, operand_words, number_word, column_word, expr_words};
ghost use Rattle.script_read.specs.Sentences.{sentence_in, words_in, bytes_in};

use crate::sentence::Sentence;
use script_defs::{
    ColumnPlace, ExprPlace, NumberPlace, Selector, Shape, Word, selector_spelled, shape_of,
    word_spelled,
};

/// The statement or action word of a line, where it is known in its place.
pub(crate) fn word_of(s: &Sentence<'_, '_>) -> Option<Word>
    ensures { result ≡ word_in (sentence_in s.now).defines (sentence_in s.now).word }
{
    let word = word_spelled(s.word)?;
    if shape_of(word, None).defines == s.defines.is_some() {
        Some(word)
    } else {
        None
    }
}

/// The word in a place behind the statement or action word.
fn word_at<'a>(args: &[&'a [u8]], place: usize) -> Option<&'a [u8]>
    ensures { option_map bytes_in result ≡ slice_get (words_in args.now) place }
{
    args.get(place).copied()
}

/// The selector behind the operand, where it is known.
pub(crate) fn selector_in(args: &[&[u8]]) -> Option<Selector>
    ensures { result ≡ selector_in (words_in args.now) }
{
    match word_at(args, 1) {
        None => None,
        Some(word) => selector_spelled(word),
    }
}

/// The shape of the word with these words behind it.
pub(crate) fn shape_in(word: Word, args: &[&[u8]]) -> Shape
    ensures { result ≡ shape_in word (words_in args.now) }
{
    shape_of(word, selector_in(args))
}

/// The words from this place on.
#[tactic(auto, using(crate::proofs::PlaceLemmas::rest_from, crate::proofs::PlaceLemmas::none_from))]
fn words_from<'w, 'a>(args: &'w [&'a [u8]], from: usize) -> &'w [&'a [u8]]
    ensures { words_in result.now ≡ drop from (words_in args.now) }
{
    if from < args.len() {
        &args[from..]
    } else {
        &args[..0]
    }
}

/// At most so many of the first words.
#[tactic(auto, using(crate::proofs::PlaceLemmas::all_first, crate::proofs::PlaceLemmas::first_of))]
fn first_words<'w, 'a>(args: &'w [&'a [u8]], most: usize) -> &'w [&'a [u8]]
    ensures { words_in result.now ≡ take most (words_in args.now) }
{
    if most < args.len() {
        &args[..most]
    } else {
        args
    }
}

/// The first word; empty where there is none.
pub(crate) fn first_word<'a>(args: &[&'a [u8]]) -> &'a [u8]
    ensures { result.now ≡ unwrap_or (slice_get (words_in args.now) 0) [] }
{
    let nothing: &'a [u8] = b"";
    match args {
        [] => nothing,
        [first, ..] => *first,
    }
}

/// The words that name earlier lines.
pub(crate) fn operand_words<'w, 'a>(shape: &Shape, args: &'w [&'a [u8]]) -> &'w [&'a [u8]]
    ensures { words_in result.now ≡ operand_words shape.now (words_in args.now) }
{
    first_words(words_from(args, shape.names.from), shape.names.most)
}

/// The word in a number's place.
pub(crate) fn number_word<'a>(number: Option<NumberPlace>, args: &[&'a [u8]]) -> Option<&'a [u8]>
    ensures { option_map bytes_in result ≡ number_word number (words_in args.now) }
{
    match number {
        None => None,
        Some(number) => word_at(args, number.place),
    }
}

/// The word in a column's place.
pub(crate) fn column_word<'a>(column: Option<ColumnPlace>, args: &[&'a [u8]]) -> Option<&'a [u8]>
    ensures { option_map bytes_in result ≡ column_word column (words_in args.now) }
{
    match column {
        None => None,
        Some(column) => word_at(args, column.place),
    }
}

/// The words of expressions.
pub(crate) fn expr_words<'w, 'a>(place: ExprPlace, args: &'w [&'a [u8]]) -> &'w [&'a [u8]]
    ensures { words_in result.now ≡ expr_words place (words_in args.now) }
{
    match place {
        ExprPlace::Nowhere => &args[..0],
        ExprPlace::Test(from) | ExprPlace::List(from) => words_from(args, from),
    }
}
