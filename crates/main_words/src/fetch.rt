//! Arguments from the environment.

use dia_edge::NoMemory;
use std::alloc::Global;
use std::env::FillError;
use std::rt::Env;

/// How many bytes of an argument are asked for at first.
const ROOM: usize = 256;

/// The argument, if it has no more bytes than there is room for.
fn fetch_within<R: Env>(
    rt: &R,
    alloc: Global,
    place: usize,
    room: usize,
) -> Result<Result<Vec<u8>, FillError>, NoMemory> {
    let mut bytes = vec![in alloc; 0u8; room]?;
    match rt.arg(place, bytes.as_mut_slice()) {
        Ok(count) => {
            bytes.truncate(count);
            Ok(Ok(bytes))
        }
        Err(e) => Ok(Err(e)),
    }
}

/// The argument at this place, or none where there are fewer.
fn fetch<R: Env>(rt: &R, alloc: Global, place: usize) -> Result<Option<Vec<u8>>, NoMemory> {
    let mut room = ROOM;
    for _ in 0..usize::BITS {
        match fetch_within(rt, alloc, place, room)? {
            Ok(bytes) => return Ok(Some(bytes)),
            Err(FillError::NotPresent) => return Ok(None),
            Err(FillError::TooLong) => room = room.saturating_add(room),
        }
    }
    Err(NoMemory)
}

/// The bytes of each argument behind the program's name, whatever that name is.
pub fn fetch_arguments<R: Env>(rt: &R, alloc: Global) -> Result<Vec<Vec<u8>>, NoMemory> {
    let mut args = Vec::new(alloc);
    for place in 1..usize::MAX {
        match fetch(rt, alloc, place)? {
            Some(arg) => args.push(arg)?,
            None => break,
        }
    }
    Ok(args)
}
