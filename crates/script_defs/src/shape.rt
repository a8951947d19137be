//! What stands behind each word of the language: one row a word.
ghost use Rattle.std.specs.Prelude.{◌≡◌};
ghost use Rattle.script_defs.specs.Shapes.{shape_of};

use crate::limits::MOST_NUMBERS;
use crate::word::{Selector, Word};
use row_defs::Kind;

/// Which of the words behind a statement or action word name earlier lines.
#[derive(Clone, Copy)]
pub struct Names {
    /// The place of the first, counted from 0.
    pub from: usize,
    /// How many there are at most.
    pub most: usize,
}

/// Where a number stands, and its range.
#[derive(Clone, Copy)]
pub struct NumberPlace {
    /// The place, counted from 0.
    pub place: usize,
    /// The smallest number that may stand there.
    pub least: u64,
    /// The largest.
    pub most: u64,
}

/// Where a column of the first operand stands, and its kind.
#[derive(Clone, Copy)]
pub struct ColumnPlace {
    /// The place, counted from 0.
    pub place: usize,
    /// The kind that the column must have.
    pub kind: Kind,
}

/// Where expressions stand.
#[derive(Clone, Copy)]
pub enum ExprPlace {
    /// There are none.
    Nowhere,
    /// One expression from this place on, which is a number.
    Test(usize),
    /// One or more from this place on.
    List(usize),
}

/// What may stand behind a statement or action word.
#[derive(Clone, Copy)]
pub struct Shape {
    /// Whether the word stands behind a name and `=`.
    pub defines: bool,
    /// Whether the selector is known, where the word has one.
    pub is_selected: bool,
    /// How many words there are at least.
    pub least: usize,
    /// How many at most, where there is a bound but that of the line.
    pub most: Option<usize>,
    /// The names of earlier lines.
    pub names: Names,
    /// A number.
    pub number: Option<NumberPlace>,
    /// A column.
    pub column: Option<ColumnPlace>,
    /// Expressions.
    pub exprs: ExprPlace,
}

/// The shape of the word with this selector, where there is one.
pub fn shape_of(word: Word, selector: Option<Selector>) -> Shape
    ensures { result ≡ shape_of word selector }
{
    let line = Shape {
        defines: true,
        is_selected: true,
        least: 1,
        most: Some(1),
        names: Names { from: 0, most: 0 },
        number: None,
        column: None,
        exprs: ExprPlace::Nowhere,
    };
    let local = Shape {
        least: 2,
        most: None,
        names: Names { from: 0, most: 1 },
        ..line
    };
    let action = Shape {
        defines: false,
        names: Names { from: 0, most: 1 },
        ..line
    };
    match word {
        Word::Lines => line,
        Word::Generate => Shape {
            number: Some(NumberPlace {
                place: 0,
                least: 0,
                most: MOST_NUMBERS,
            }),
            ..line
        },
        Word::Map => Shape {
            exprs: ExprPlace::List(1),
            ..local
        },
        Word::Filter => Shape {
            exprs: ExprPlace::Test(1),
            ..local
        },
        Word::FlatMap => match selector {
            None => Shape {
                is_selected: false,
                ..local
            },
            Some(Selector::Words) => Shape {
                least: 3,
                most: Some(3),
                column: Some(ColumnPlace {
                    place: 2,
                    kind: Kind::Text,
                }),
                ..local
            },
            Some(Selector::Spread) => Shape {
                least: 4,
                most: Some(4),
                column: Some(ColumnPlace {
                    place: 2,
                    kind: Kind::Int,
                }),
                number: Some(NumberPlace {
                    place: 3,
                    least: 1,
                    most: 16,
                }),
                ..local
            },
        },
        Word::Cache => Shape {
            names: Names { from: 0, most: 1 },
            ..line
        },
        Word::Print | Word::Size => action,
        Word::Sum => Shape {
            least: 2,
            most: Some(2),
            column: Some(ColumnPlace {
                place: 1,
                kind: Kind::Int,
            }),
            ..action
        },
    }
}
