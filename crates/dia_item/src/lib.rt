//! Rows: read from bytes, borrowed, built and owned.
//!
//! The layers above see a row as the list of its cells (`Rattle.row_defs.specs.Rows`), through the word
//! `row_in_ref` of `specs/Lent.antt`, kinds through `kind_list` of `specs/KindList.antt`, and a field through
//! `cell_of` of `specs/Fields.antt`. A row's bytes are those that `IsRow` names, and nothing else: `specs/Laws.antt`
//! has what follows for every row. `specs/Reading.antt` is of this crate alone.
#![tactic(auto)]

mod appending;
mod field;
mod kinds;
mod laws;
mod order;
mod own_row;
mod read;
mod reading;
mod row_buf;
mod row_ref;

pub use appending::append;
pub use field::Field;
pub use kinds::Kinds;
pub use laws::{
    rows_are_no_prefixes, rows_are_read_again, rows_are_spelled_once, rows_have_spellings,
    rows_have_their_kinds,
};
pub use order::compare;
pub use own_row::OwnRow;
pub use reading::{known_row, read_row};
pub use row_buf::{LONGEST_ROW, RowBuf};
pub use row_defs::Kind;
pub use row_ref::RowRef;
