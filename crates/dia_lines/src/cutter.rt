//! Cuts an input that comes in pieces into its lines.
ghost use Rattle.std.specs.Prelude.{◌≡◌, ◌≤◌, vec_len, vec_capacity};
ghost use Rattle.row_defs.specs.Limits.{longest_text, most_rows};

use crate::line_taker::LineTaker;
use dia_edge::NoMemory;
use dia_item::append;
use dia_text::find_separator;
use row_defs::limits::LONGEST_TEXT;
use std::alloc::Global;
use std::sync::Wait;

/// Why a piece wasn't taken.
#[derive(Clone, Copy, Debug)]
pub(crate) enum TakeErr<E> {
    /// This line, from 1, has more bytes than a text may have.
    LineTooLong(u64),
    /// The taker refused a line.
    Refused(E),
}

/// How many lines ended, and what came of the next.
#[derive(Drop)]
pub(crate) struct Cutter {
    pub ended: u64,
    pub run: Vec<u8>,
    ghost short: { vec_len run ≤ longest_text },
    ghost room: { longest_text ≤ vec_capacity run },
}

impl Cutter {
    ghost use Rattle.std.specs.Prelude.{◌≡◌, ◌+◌, ◌≤◌, ◌<◌, ◌++◌, ◌∷◌, ◌^◌, ◌-◌, [], ℕ, List, length, take, drop, IfOk, IfErr, OnOk};
    ghost use Rattle.row_defs.specs.Pieces.{line_feed};
    ghost use Rattle.dia_lines.specs.Taking.{HasTaken, IsOfTaker, IsTakeReason, Consumes, IsCut, RefusedLine, TookAllOf, IsTurnedAway};
    ghost use Rattle.dia_text.specs.Unbroken.{IsUnbroken};

    pub(crate) fn new(alloc: Global) -> Result<Cutter, NoMemory>
        ensures run { IfOk result (λ cutter. cutter.run.items ≡ []) }
        ensures ended { IfOk result (λ cutter. cutter.ended ≡ 0) }
    {
        Ok(Cutter {
            ended: 0,
            run: Vec::with_capacity(alloc, LONGEST_TEXT)?,
        })
    }

    /// The line that ends behind these bytes.
    fn end_line<R: Wait, T: LineTaker>(
        &mut self,
        rt: &R,
        taker: &mut T,
        desk: &mut T::Desk,
        bytes: &[u8],
    ) -> Result<(), TakeErr<T::Refusal>>
        requires few { self.old.ended < most_rows }
        requires unbroken { IsUnbroken line_feed bytes.now }
        requires count { T.count taker.old ≡ self.old.ended }
        requires serves { T.serves taker.old desk.old }
        ensures ok { OnOk result ((began : T) (seen : List ℕ) → HasTaken T.LineTaker began taker.old self.old seen
            → HasTaken T.LineTaker began taker.new self.new (seen ++ (bytes.now ++ line_feed ∷ []))) }
        ensures refused { IfErr result (λ e. (began : T) (seen : List ℕ) → HasTaken T.LineTaker began taker.old self.old seen
            → IsTakeReason T.LineTaker began desk.old taker.new desk.new e (seen ++ (bytes.now ++ line_feed ∷ []))) }
        ensures ended { OnOk result (self.new.ended ≡ self.old.ended + 1) }
        ensures count { OnOk result (T.count taker.new ≡ self.new.ended) }
        ensures serves { OnOk result (T.serves taker.new desk.new) }
        ensures own { IfErr result (λ e. IsOfTaker T.LineTaker desk.old taker.new desk.new e) }
        ensures keeps { T.keeps taker.old desk.old taker.new desk.new }
        ensures follows { T.follows desk.old desk.new }
    {
        if bytes.len() > LONGEST_TEXT - self.run.len() {
            return Err(TakeErr::LineTooLong(self.ended + 1));
        }
        match taker.take(rt, desk, self.run.as_slice(), bytes) {
            Ok(()) => {
                self.run.clear();
                self.ended += 1;
                Ok(())
            }
            Err(refusal) => Err(TakeErr::Refused(refusal)),
        }
    }

    /// Bytes of a line that goes on.
    fn go_on<T: LineTaker>(&mut self, bytes: &[u8]) -> Result<(), TakeErr<T::Refusal>>
        requires few { self.old.ended < most_rows }
        requires unbroken { IsUnbroken line_feed bytes.now }
        ensures ok { OnOk result ((began t : T) (seen : List ℕ) → HasTaken T.LineTaker began t self.old seen → HasTaken T.LineTaker began t self.new (seen ++ bytes.now)) }
        ensures refused { IfErr result (λ e. (began t : T) (a b : T.Desk) (seen : List ℕ) → HasTaken T.LineTaker began t self.old seen
            → IsTakeReason T.LineTaker began a t b e (seen ++ bytes.now)) }
        ensures ended { OnOk result (self.new.ended ≡ self.old.ended) }
        ensures own { IfErr result (λ e. (t : T) (a b : T.Desk) → IsOfTaker T.LineTaker a t b e) }
    {
        if bytes.len() > LONGEST_TEXT - self.run.len() {
            return Err(TakeErr::LineTooLong(self.ended + 1));
        }
        append(&mut self.run, bytes);
        Ok(())
    }

    /// Takes the bytes up to the end of the line, or all where it goes on, and answers the rest.
    fn step<'b, R: Wait, T: LineTaker>(
        &mut self,
        rt: &R,
        taker: &mut T,
        desk: &mut T::Desk,
        bytes: &'b [u8],
    ) -> Result<&'b [u8], TakeErr<T::Refusal>>
        requires few { self.old.ended < most_rows }
        requires some { 0 < length bytes.now }
        requires count { T.count taker.old ≡ self.old.ended }
        requires serves { T.serves taker.old desk.old }
        ensures ok { IfOk result (λ rest. Consumes T.LineTaker taker.old self.old taker.new self.new bytes.now rest.now) }
        ensures shorter { IfOk result (λ rest. length rest.now < length bytes.now) }
        ensures refused { IfErr result (λ e. (began : T) (seen : List ℕ) → HasTaken T.LineTaker began taker.old self.old seen
            → IsCut T.LineTaker began desk.old taker.new desk.new e seen bytes.now) }
        ensures ended { OnOk result (self.new.ended ≤ self.old.ended + 1) }
        ensures count { OnOk result (T.count taker.new ≡ self.new.ended) }
        ensures serves { OnOk result (T.serves taker.new desk.new) }
        ensures own { IfErr result (λ e. IsOfTaker T.LineTaker desk.old taker.new desk.new e) }
        ensures keeps { T.keeps taker.old desk.old taker.new desk.new }
        ensures follows { T.follows desk.old desk.new }
    {
        match find_separator(b'\n', bytes) {
            None => {
                self.go_on::<T>(bytes)?;
                Ok(&[])
            }
            Some(i) => {
                let (line, _) = bytes.split_at(i);
                let (_, rest) = bytes.split_at(i + 1);
                self.end_line(rt, taker, desk, line)?;
                Ok(rest)
            }
        }
    }

    /// Takes the next piece of the input.
    pub(crate) fn take<R: Wait, T: LineTaker>(
        &mut self,
        rt: &R,
        taker: &mut T,
        desk: &mut T::Desk,
        piece: &[u8],
    ) -> Result<(), TakeErr<T::Refusal>>
        requires few { self.old.ended + length piece.now < most_rows }
        requires count { T.count taker.old ≡ self.old.ended }
        requires serves { T.serves taker.old desk.old }
        ensures ok { OnOk result ((began : T) (seen : List ℕ) → HasTaken T.LineTaker began taker.old self.old seen → HasTaken T.LineTaker began taker.new self.new (seen ++ piece.now)) }
        ensures refused { IfErr result (λ e. (began : T) (seen : List ℕ) → HasTaken T.LineTaker began taker.old self.old seen
            → IsCut T.LineTaker began desk.old taker.new desk.new e seen piece.now) }
        ensures ended { OnOk result (self.new.ended ≤ self.old.ended + length piece.now) }
        ensures count { OnOk result (T.count taker.new ≡ self.new.ended) }
        ensures serves { OnOk result (T.serves taker.new desk.new) }
        ensures own { IfErr result (λ e. IsOfTaker T.LineTaker desk.old taker.new desk.new e) }
        ensures keeps { T.keeps taker.old desk.old taker.new desk.new }
        ensures follows { T.follows desk.old desk.new }
    {
        let mut rest = piece;
        while !rest.is_empty() {
            rest = self.step(rt, taker, desk, rest)?;
        }
        Ok(())
    }

    /// Takes what came of the last line, where the input has ended: it is a line, unless it is empty.
    pub(crate) fn finish<R: Wait, T: LineTaker>(
        &self,
        rt: &R,
        taker: &mut T,
        desk: &mut T::Desk,
    ) -> Result<(), T::Refusal>
        requires few { self.now.ended < most_rows }
        requires count { T.count taker.old ≡ self.now.ended }
        requires serves { T.serves taker.old desk.old }
        ensures ok { OnOk result ((began : T) (seen : List ℕ) → HasTaken T.LineTaker began taker.old self.now seen → TookAllOf T.LineTaker began taker.new seen) }
        ensures refused { IfErr result (λ e. (began : T) (seen : List ℕ) → HasTaken T.LineTaker began taker.old self.now seen
            → IsTurnedAway T.LineTaker began desk.old taker.new desk.new e seen) }
        ensures serves { OnOk result (T.serves taker.new desk.new) }
        ensures own { IfErr result (λ e. RefusedLine T.LineTaker desk.old taker.new desk.new e) }
        ensures keeps { T.keeps taker.old desk.old taker.new desk.new }
        ensures follows { T.follows desk.old desk.new }
    {
        if self.run.is_empty() {
            return Ok(());
        }
        taker.take(rt, desk, self.run.as_slice(), &[])
    }
}
