//! What no clause says: which arguments are fetched, and that words are made where there is memory.

use super::*;
use dia_edge::Name;
use std::env::FillError;
use std::rt::Env;
use std::test::Fail;

/// An environment of these arguments, of which the first is the program's name.
#[derive(Drop)]
struct Given<'a> {
    args: &'a [&'a [u8]],
}

impl Env for Given<'_> {
    fn arg(&self, i: usize, buf: &mut [u8]) -> Result<usize, FillError> {
        let Some(arg) = self.args.get(i) else {
            return Err(FillError::NotPresent);
        };
        if arg.len() > buf.len() {
            return Err(FillError::TooLong);
        }
        buf[..arg.len()].copy_from_slice(arg);
        Ok(arg.len())
    }

    fn var(&self, _name: &str, _buf: &mut [u8]) -> Result<usize, FillError> {
        Err(FillError::NotPresent)
    }

    fn var_at(&self, _i: usize, _buf: &mut [u8]) -> Result<usize, FillError> {
        Err(FillError::NotPresent)
    }
}

#[test]
fn the_words_are_those_behind_the_programs_name(rt: HostRuntime) -> Result<(), Fail> {
    let alloc = rt.alloc();
    let long = vec![in alloc; b'x'; 5_000]?;
    let args: [&[u8]; 4] = [b"/\xFF/thrill", b"run", b"", long.as_slice()];
    let fetched = fetch_arguments(&Given { args: &args }, alloc)?;
    let words = command_words(alloc, fetched.as_slice())?;
    let mut lengths = Vec::new(alloc);
    for word in words.as_slice() {
        lengths.push(word.text().len())?;
    }
    assert_eq!(rt; lengths.as_slice(), [3, 0, 5_000].as_slice());
    assert_eq!(rt; words.first().map(Name::text), Some("run"));
    Ok(())
}

#[test]
fn a_word_that_isnt_utf8_leaves_no_words(rt: HostRuntime) -> Result<(), Fail> {
    let args: [&[u8]; 3] = [b"thrill", b"run", b"\xFF"];
    let fetched = fetch_arguments(&Given { args: &args }, rt.alloc())?;
    let words = command_words(rt.alloc(), fetched.as_slice())?;
    assert_eq!(rt; (fetched.len(), words.len()), (2, 0));
    Ok(())
}
