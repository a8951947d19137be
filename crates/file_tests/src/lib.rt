//! Tests of files, mail and streams, at their public calls.
//!
//! They stand apart from what they test, so that a check of that isn't made twice.
#![tactic(auto)]

#[cfg(test)]
mod cat;
#[cfg(test)]
mod dealing;
#[cfg(test)]
mod file;
#[cfg(test)]
mod input;
#[cfg(test)]
mod mail;
#[cfg(test)]
mod mix;
#[cfg(test)]
mod writing;
