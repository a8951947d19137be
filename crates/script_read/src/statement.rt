//! Statements. Operands are the script's line numbers.

use dia_edge::Name;
use dia_expr::Expr;

/// What a line of a script is.
#[derive(Debug, Drop)]
pub enum Form {
    /// The lines of an input, each a row of one text.
    Lines {
        /// The input's name.
        input: Name,
    },
    /// The numbers from 0 on, each a row.
    Generate {
        /// How many: at most 2^32.
        count: u64,
    },
    /// One row for each row of an earlier line.
    Map {
        /// The earlier line.
        of: u32,
        /// The columns of the new row.
        exprs: Vec<Expr>,
    },
    /// The rows of an earlier line for which a number isn't 0.
    Filter {
        /// The earlier line.
        of: u32,
        /// The number.
        test: Expr,
    },
    /// For each word of a column the row, with the word in the column's place.
    Words {
        /// The earlier line.
        of: u32,
        /// The column, which is a text.
        column: u32,
    },
    /// For each number below another the row, with the number added to a column.
    Spread {
        /// The earlier line.
        of: u32,
        /// The column, which is a number.
        column: u32,
        /// How many rows are made of one: 1 to 16.
        count: u32,
    },
    /// The rows of an earlier line, done once and kept.
    Cache {
        /// The earlier line.
        of: u32,
    },
}

/// What is done with a line.
#[derive(Clone, Copy, Debug)]
pub enum Action {
    /// Prints the rows.
    Print {
        /// The line whose rows are printed.
        of: u32,
    },
    /// Prints how many rows there are.
    Size {
        /// The line whose rows are counted.
        of: u32,
    },
    /// Prints the sum of a column.
    Sum {
        /// The line whose rows are added up.
        of: u32,
        /// The column, which is a number.
        column: u32,
    },
}

/// A statement of a script.
#[derive(Debug, Drop)]
pub enum Statement {
    /// A line with a name.
    Line {
        /// The name that later statements use.
        name: Name,
        /// What the line is.
        form: Form,
    },
    /// An action.
    Act(Action),
}

/// A statement and the number of its line in the script, from 1.
#[derive(Debug, Drop)]
pub struct Numbered {
    /// The line's number.
    pub line: u32,
    /// What stands there.
    pub statement: Statement,
}
