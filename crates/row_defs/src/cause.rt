//! Why a script is refused.

/// Why a script is refused. Of several causes on one line the first of this list is given.
#[derive(Clone, Copy, Debug, PartialEq, Eq)]
pub enum Cause {
    /// The script has more than 131,328 bytes or more than 256 lines.
    ScriptLong,
    /// The line has more than 512 bytes.
    LineLong,
    /// The line has a byte outside 0x20 to 0x7E, a name that is none, or the wrong number of words, or the words end
    /// inside an expression.
    BadForm,
    /// An operand isn't the name of an earlier line.
    UnknownName,
    /// The name that is defined is the name of an earlier line.
    NameTaken,
    /// A statement or action word, a selector, or a word where an expression begins, isn't known.
    UnknownWord,
    /// A number isn't 1 to 20 decimal digits below 2^64, or is outside its range.
    BadNumber,
    /// A column, or a number of key columns or reducers, isn't one of the operand's.
    BadColumn,
    /// An expression, a column or an operand hasn't the kind that its place asks for.
    BadKind,
    /// The result would have more than 6 columns.
    TooManyColumns,
    /// A reducer that doesn't commute stands where the order of rows is free.
    NotCommuting,
    /// An operand of a merge isn't sorted by its form.
    NotSorted,
}
