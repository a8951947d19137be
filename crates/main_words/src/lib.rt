//! The words of a command line, as the environment gives them.
//!
//! The program relies on `command_words`: the words are just the arguments, or none where one isn't UTF-8. Which
//! arguments there are rests on the environment, which tells nothing; `fetch_arguments` takes those behind the
//! program's name.
#![tactic(auto)]

mod fetch;
mod words;

pub use fetch::fetch_arguments;
pub use words::command_words;

#[cfg(test)]
mod tests;
