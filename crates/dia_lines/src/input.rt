//! Reads an input.
ghost use Rattle.std.specs.Prelude.{◌≡◌, ◌+◌, ◌≤◌, ◌<◌, ◌∷◌, [], true, ℕ, List, Option, Some, length, OnOk, OnErr, IfOk, IfErr, IfSome};
ghost use Rattle.dia_edge.specs.Shelves.{IsAtEnd};
ghost use Rattle.dia_lines.specs.Taking.{HasTaken, TookAllOf};
ghost use Rattle.dia_lines.specs.Inputs.{Stays, Asks, IsInputReason, IsReading, TookInput, TookOpened, IsReadFault, IsTakersOwn, reason_of};

use crate::cutter::{Cutter, TakeErr};
use crate::line_taker::LineTaker;
use dia_edge::{Failed, Name, NoMemory, Shelf};
use row_defs::limits::LONGEST_INPUT;
use std::alloc::Global;
use std::sync::Wait;

/// Why an input wasn't read.
#[derive(Clone, Copy, Debug, PartialEq, Eq)]
pub enum InputErr<E> {
    /// The shelf has no such input.
    Missing,
    /// This line, from 1, is the first within the most bytes of an input that has more bytes than a text may have.
    LineTooLong {
        /// The line's number.
        line: u64,
    },
    /// There is no such line, and the input has more than 2^32 bytes.
    InputTooLong,
    /// The taker refused one of its lines.
    Refused(E),
    /// The shelf failed.
    Read {
        /// Its count of faults now.
        count: u64,
    },
    /// There was no memory.
    NoMemory,
}

impl<E> From<NoMemory> for InputErr<E> {
    ghost use Rattle.std.specs.Prelude.{◌≡◌};
    ghost use Rattle.dia_lines.specs.declared.input.InputErr.TheVariants as variants;

    ghost from_gives = { λ _ e. e ≡ variants.NoMemory };

    fn from(_: NoMemory) -> InputErr<E> {
        InputErr::NoMemory
    }
}

// how many bytes are asked for at once
const PIECE: usize = 65_536;

/// How many bytes are asked for after so many: up to the limit, and then the one that shows that there are more.
fn room_after(total: u64) -> usize
    requires { total ≤ LONGEST_INPUT }
    ensures some { 0 < result }
    ensures most { result ≤ PIECE }
    ensures within { total < LONGEST_INPUT → total + result ≤ LONGEST_INPUT }
{
    if total == LONGEST_INPUT {
        return 1;
    }
    (LONGEST_INPUT - total).min(PIECE as u64) as usize
}

/// The error of an input whose piece wasn't taken.
fn input_err<E>(e: TakeErr<E>) -> InputErr<E>
    ensures { result ≡ reason_of e }
{
    match e {
        TakeErr::LineTooLong(line) => InputErr::LineTooLong { line },
        TakeErr::Refused(refusal) => InputErr::Refused(refusal),
    }
}

/// Reads the next piece and takes its lines; 0 is the end.
fn take_piece<R: Wait, N: Shelf, T: LineTaker>(
    rt: &R,
    shelf: &mut N,
    taker: &mut T,
    desk: &mut T::Desk,
    cutter: &mut Cutter,
    buffer: &mut [u8],
    total: u64,
) -> Result<u64, InputErr<T::Refusal>>
    requires total { total ≤ LONGEST_INPUT }
    requires few { cutter.old.ended ≤ total }
    requires buffer { length buffer.old ≡ PIECE }
    requires count { T.count taker.old ≡ cutter.old.ended }
    requires serves { T.serves taker.old desk.old }
    ensures ok { IfOk result (λ n. (began : T) (all : Option (List ℕ)) → IsReading T.LineTaker all began taker.old cutter.old total (N.left shelf.old)
        → IsReading T.LineTaker all began taker.new cutter.new (total + n) (N.left shelf.new)) }
    ensures within { IfOk result (λ n. total + n ≤ LONGEST_INPUT) }
    ensures end { IfOk result (λ n. n ≡ 0 → IsAtEnd (N.left shelf.new)) }
    ensures few { IfOk result (λ n. cutter.new.ended ≤ total + n) }
    ensures refused { IfErr result (λ e. (began : T) (all : Option (List ℕ)) → IsReading T.LineTaker all began taker.old cutter.old total (N.left shelf.old)
        → IfSome all (λ bytes. IsInputReason T.LineTaker began desk.old taker.new desk.new e (Some bytes))) }
    ensures fault { IfErr result (λ e. IsReadFault e (N.faults shelf.old) (N.faults shelf.new)) }
    ensures stays { Stays N.Shelf shelf.old shelf.new }
    ensures asked { N.asked shelf.new ≡ N.asked shelf.old }
    ensures count { OnOk result (T.count taker.new ≡ cutter.new.ended) }
    ensures serves { OnOk result (T.serves taker.new desk.new) }
    ensures own { IfErr result (λ e. IsTakersOwn T.LineTaker desk.old taker.new desk.new e) }
    ensures keeps { T.keeps taker.old desk.old taker.new desk.new }
    ensures follows { T.follows desk.old desk.new }
{
    let room = room_after(total);
    let place = &mut buffer[..room];
    match shelf.read(place) {
        Err(Failed) => Err(InputErr::Read {
            count: shelf.fault_count(),
        }),
        Ok(0) => Ok(0),
        Ok(n) => {
            if total == LONGEST_INPUT {
                return Err(InputErr::InputTooLong);
            }
            let (piece, _) = place.split_at(n);
            match cutter.take(rt, taker, desk, piece) {
                Ok(()) => Ok(n as u64),
                Err(e) => Err(input_err(e)),
            }
        }
    }
}

/// A buffer for pieces.
fn new_buffer(alloc: Global) -> Result<Vec<u8>, NoMemory>
    ensures { IfOk result (λ buffer. length buffer.items ≡ PIECE) }
{
    Ok(vec![in alloc; 0u8; PIECE]?)
}

/// Reads the opened input to its end, and answers how many bytes it has.
fn take_all<R: Wait, N: Shelf, T: LineTaker>(
    rt: &R,
    shelf: &mut N,
    taker: &mut T,
    desk: &mut T::Desk,
    cutter: &mut Cutter,
    buffer: &mut [u8],
) -> Result<u64, InputErr<T::Refusal>>
    requires taken { HasTaken T.LineTaker taker.old taker.old cutter.old [] }
    requires none { cutter.old.ended ≡ 0 }
    requires buffer { length buffer.old ≡ PIECE }
    requires count { T.count taker.old ≡ cutter.old.ended }
    requires serves { T.serves taker.old desk.old }
    ensures ok { IfOk result (λ total. IsReading T.LineTaker (N.left shelf.old) taker.old taker.new cutter.new total (N.left shelf.new) × IsAtEnd (N.left shelf.new)) }
    ensures within { IfOk result (λ total. total ≤ LONGEST_INPUT) }
    ensures refused { IfErr result (λ e. IfSome (N.left shelf.old) (λ bytes. IsInputReason T.LineTaker taker.old desk.old taker.new desk.new e (Some bytes))) }
    ensures fault { IfErr result (λ e. IsReadFault e (N.faults shelf.old) (N.faults shelf.new)) }
    ensures stays { Stays N.Shelf shelf.old shelf.new }
    ensures asked { N.asked shelf.new ≡ N.asked shelf.old }
    ensures few { OnOk result (cutter.new.ended ≤ LONGEST_INPUT) }
    ensures count { OnOk result (T.count taker.new ≡ cutter.new.ended) }
    ensures serves { OnOk result (T.serves taker.new desk.new) }
    ensures own { IfErr result (λ e. IsTakersOwn T.LineTaker desk.old taker.new desk.new e) }
    ensures keeps { T.keeps taker.old desk.old taker.new desk.new }
    ensures follows { T.follows desk.old desk.new }
{
    let mut total = 0u64;
    while total <= LONGEST_INPUT {
        match take_piece(rt, shelf, taker, desk, cutter, buffer, total)? {
            0 => return Ok(total),
            n => total += n,
        }
    }
    unreachable!()
}

/// Takes the lines of the opened input, to its end.
fn take_opened<R: Wait, N: Shelf, T: LineTaker>(
    rt: &R,
    alloc: Global,
    shelf: &mut N,
    taker: &mut T,
    desk: &mut T::Desk,
) -> Result<(), InputErr<T::Refusal>>
    requires none { T.count taker.old ≡ 0 }
    requires serves { T.serves taker.old desk.old }
    ensures took { OnOk result (IfSome (N.left shelf.old) (λ bytes. TookInput T.LineTaker taker.old taker.new (Some bytes))) }
    ensures lines { OnOk result ((bytes : List ℕ) × TookAllOf T.LineTaker taker.old taker.new bytes) }
    ensures refused { IfErr result (λ e. IfSome (N.left shelf.old) (λ bytes. IsInputReason T.LineTaker taker.old desk.old taker.new desk.new e (Some bytes))) }
    ensures fault { IfErr result (λ e. IsReadFault e (N.faults shelf.old) (N.faults shelf.new)) }
    ensures stays { Stays N.Shelf shelf.old shelf.new }
    ensures asked { N.asked shelf.new ≡ N.asked shelf.old }
    ensures serves { OnOk result (T.serves taker.new desk.new) }
    ensures own { IfErr result (λ e. IsTakersOwn T.LineTaker desk.old taker.new desk.new e) }
    ensures keeps { T.keeps taker.old desk.old taker.new desk.new }
    ensures follows { T.follows desk.old desk.new }
{
    let mut buffer = new_buffer(alloc)?;
    let mut cutter = Cutter::new(alloc)?;
    take_all(rt, shelf, taker, desk, &mut cutter, buffer.as_mut_slice())?;
    match cutter.finish(rt, taker, desk) {
        Ok(()) => Ok(()),
        Err(refusal) => Err(InputErr::Refused(refusal)),
    }
}

/// Reads an input from its first byte to its end, and has its lines taken in order.
///
/// After a refusal the shelf stands anywhere in the input, and the taker has taken the lines before.
pub fn read_input<R: Wait, N: Shelf, T: LineTaker>(
    rt: &R,
    alloc: Global,
    shelf: &mut N,
    name: &Name,
    taker: &mut T,
    desk: &mut T::Desk,
) -> Result<(), InputErr<T::Refusal>>
    requires none { T.count taker.old ≡ 0 }
    requires serves { T.serves taker.old desk.old }
    ensures took { N.is_fixed shelf.old ≡ true → OnOk result (IfSome (N.holds shelf.old) (λ held. TookInput T.LineTaker taker.old taker.new (held name.now))) }
    // The lines are those of what the name held when it was opened, whether the shelf is fixed or not.
    ensures opened { OnOk result (TookOpened N.Shelf T.LineTaker shelf.old name.now taker.old taker.new) }
    // Whatever the shelf tells, they are the lines of some bytes.
    ensures lines { OnOk result ((bytes : List ℕ) × TookAllOf T.LineTaker taker.old taker.new bytes) }
    ensures refused { N.is_fixed shelf.old ≡ true → IfErr result (λ e. IfSome (N.holds shelf.old) (λ held. IsInputReason T.LineTaker taker.old desk.old taker.new desk.new e (held name.now))) }
    ensures fault { IfErr result (λ e. IsReadFault e (N.faults shelf.old) (N.faults shelf.new)) }
    ensures stays { Stays N.Shelf shelf.old shelf.new }
    // The name is asked for once, or, after a refusal, perhaps not at all.
    ensures asked { Asks N.Shelf shelf.old shelf.new (name.now ∷ []) result }
    ensures serves { OnOk result (T.serves taker.new desk.new) }
    ensures own { IfErr result (λ e. IsTakersOwn T.LineTaker desk.old taker.new desk.new e) }
    ensures keeps { T.keeps taker.old desk.old taker.new desk.new }
    ensures follows { T.follows desk.old desk.new }
{
    match shelf.open(name.text()) {
        Ok(true) => take_opened(rt, alloc, shelf, taker, desk),
        Ok(false) => Err(InputErr::Missing),
        Err(Failed) => Err(InputErr::Read {
            count: shelf.fault_count(),
        }),
    }
}
