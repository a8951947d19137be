//! Several pieces, one after the other.
ghost use Rattle.std.specs.Prelude.{◌≡◌, ◌≤◌, [], IfSome, length, take};
ghost use Rattle.std.specs.List.{flat_map};
ghost use Rattle.dia_edge.specs.Sinks.{Puts};

use dia_edge::{Failed, Sink};

// how many bytes are gathered for one write
const GATHERED: usize = 256;

/// Puts pieces one after the other, in one write where they have at most 256 bytes together, so that what several
/// programs write to one terminal doesn't mix. After a failure the sink took some prefix of them.
pub fn put_pieces<S: Sink>(out: &mut S, pieces: &[&[u8]]) -> Result<(), Failed>
    ensures puts { Puts S.taken S.faults out.old out.new (flat_map (λ p. p.now) pieces.now) [] result }
{
    let mut line = [0u8; GATHERED];
    match gather(pieces, &mut line) {
        Some(len) => out.put(&line[..len]),
        None => put_each(out, pieces),
    }
}

/// Puts pieces one after the other at the beginning of `into`, and answers how many bytes they have; None where there is
/// no room for all.
fn gather(pieces: &[&[u8]], into: &mut [u8]) -> Option<usize>
    ensures within { IfSome result (λ len. len ≤ length into.new) }
    ensures bytes { IfSome result (λ len. take len into.new ≡ flat_map (λ p. p.now) pieces.now) }
    ensures len { length into.new ≡ length into.old }
{
    let Some((piece, rest)) = pieces.split_first() else {
        return Some(0);
    };
    if piece.len() > into.len() {
        return None;
    }
    let (here, room) = into.split_at_mut(piece.len());
    here.copy_from_slice(piece);
    let behind = gather(rest, room)?;
    Some(piece.len() + behind)
}

/// Puts each piece in a write of its own.
fn put_each<S: Sink>(out: &mut S, pieces: &[&[u8]]) -> Result<(), Failed>
    ensures puts { Puts S.taken S.faults out.old out.new (flat_map (λ p. p.now) pieces.now) [] result }
{
    match pieces.split_first() {
        None => Ok(()),
        Some((piece, rest)) => {
            out.put(piece)?;
            put_each(out, rest)
        }
    }
}
