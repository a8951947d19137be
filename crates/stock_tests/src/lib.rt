//! Tests of what workers do with the lines in stock, at the public calls.
//!
//! They stand apart from what they test, so that a check of that isn't made twice.
#![tactic(auto)]

#[cfg(test)]
mod acting;
#[cfg(test)]
mod adding;
#[cfg(test)]
mod counting;
#[cfg(test)]
mod hands;
#[cfg(test)]
mod placing;
#[cfg(test)]
mod printing;
#[cfg(test)]
mod stock;
