//! Stored lines.
ghost use Rattle.std.specs.Prelude.{◌≡◌, ◌<◌, ◌≤◌, ◌-◌, ◌^◌, min, length, IsSome, IfOk, map, vec_len, vec_capacity, None, Some, Option, replicate, slice_get, slice_set};
ghost use Rattle.std.specs.List.{flat_map, filter_map};
ghost use Rattle.dia_file.specs.Encoding.{AllFit};
ghost use Rattle.dia_file.specs.Files.{FileValue};
ghost use Rattle.scatter.specs.Lines.{LineValue, line_value, first_kinds, with_parts, lines_in, Sets};

use dia_edge::NoMemory;
use dia_file::File;
use dia_item::Kinds;
use std::alloc::Global;
use std::collections::BTreeMap;
use std::mem;

/// A stored line: the kinds of its rows, and one part per worker, none where that is lent.
#[derive(Drop)]
pub(crate) struct Line {
    pub(crate) kinds: Kinds,
    pub(crate) parts: Vec<Option<File>>,
}

impl Line {
    /// Of these parts, of which there are some, and for which there is room.
    pub(crate) fn new(files: Vec<File>, room: Vec<Option<File>>) -> Line
        requires some { 0 < vec_len files }
        requires room { (vec_len room ≡ 0) × (vec_len files ≤ vec_capacity room) }
        ensures { line_value result ≡ record { kinds = first_kinds files.items; parts = map (λ (f : FileValue). Some f) files.items } }
    {
        let kinds = files[0].kinds();
        let mut parts = room;
        for file in files {
            parts.push_reserved(Some(file));
        }
        Line { kinds, parts }
    }
}

/// So many parts, all lent.
pub(crate) fn lent_parts(alloc: Global, count: usize) -> Result<Vec<Option<File>>, NoMemory>
    ensures { IfOk result (λ parts. parts.items ≡ replicate count None) }
{
    let mut parts = Vec::with_capacity(alloc, count)?;
    for _rank in 0..count {
        parts.push_reserved(None);
    }
    Ok(parts)
}

/// How many rows the parts that are there have in all, or `u64::MAX` where they are more. Each of them fits.
pub(crate) fn rows_in_parts(parts: &[Option<File>]) -> u64
    ensures len { result ≡ min (length (flat_map (λ (f : FileValue). f.rows) (filter_map (λ part. part) parts.now))) (2 ^ 64 - 1) }
    ensures fit { AllFit (flat_map (λ (f : FileValue). f.rows) (filter_map (λ part. part) parts.now)) }
{
    match parts.split_first() {
        None => 0,
        Some((None, rest)) => rows_in_parts(rest),
        Some((Some(file), rest)) => file.rows().saturating_add(rows_in_parts(rest)),
    }
}

/// The lines, by their numbers.
pub(crate) type Lines = BTreeMap<u32, Line>;

/// The parts of a line, which is gone.
pub(crate) fn take_parts(lines: &mut Lines, number: u32) -> Vec<Option<File>>
    requires { IsSome (lines_in lines.old number) }
    ensures parts { (line : LineValue) → lines_in lines.old number ≡ Some line → result.items ≡ line.parts }
    ensures lines { Sets (lines_in lines.old) number None (lines_in lines.new) }
{
    let Some(Line { kinds: _, parts }) = lines.remove(&number) else {
        unreachable!()
    };
    parts
}

/// The parts of a line, in whose places others stand.
pub(crate) fn replace_parts(
    lines: &mut Lines,
    number: u32,
    parts: Vec<Option<File>>,
) -> Vec<Option<File>>
    requires { IsSome (lines_in lines.old number) }
    ensures parts { (line : LineValue) → lines_in lines.old number ≡ Some line → result.items ≡ line.parts }
    ensures lines { (line : LineValue) → lines_in lines.old number ≡ Some line → Sets (lines_in lines.old) number (Some (with_parts line parts.items)) (lines_in lines.new) }
{
    let Some(line) = lines.get_mut(&number) else {
        unreachable!()
    };
    mem::replace(&mut line.parts, parts)
}

/// A part of a line is there.
pub(crate) fn put_back(lines: &mut Lines, number: u32, rank: u32, file: File)
    requires lent { (line : LineValue) × (lines_in lines.old number ≡ Some line) × (slice_get line.parts rank ≡ Some None) }
    ensures { (line : LineValue) → lines_in lines.old number ≡ Some line
        → Sets (lines_in lines.old) number (Some (with_parts line (slice_set line.parts rank (Some file)))) (lines_in lines.new) }
{
    let Some(line) = lines.get_mut(&number) else {
        unreachable!()
    };
    line.parts[rank as usize] = Some(file);
}
