//! Files that are cut behind blocks in which a row ends.
ghost use Rattle.std.specs.Prelude.{◌≡◌, ◌+◌, ◌≤◌, ◌<◌, ◌^◌, ◌++◌, ◌⊎◌, [], All, IfOk, IfErr, length, vec_len, vec_capacity};
ghost use Rattle.std.specs.VecDeque.{deque_len, deque_capacity};
ghost use Rattle.dia_item.specs.Sizes.{longest_row};
ghost use Rattle.dia_file.specs.Encoding.{encoded};
ghost use Rattle.dia_file.specs.Cuts.{ends_of, lens_of, last_len, AreEven, AreRooms, IsDue, IsWhole, rows_of_files, blocks_of_files};

use crate::file::File;
use crate::sealed::Sealed;
use dia_edge::NoMemory;
use std::alloc::Global;
use std::collections::VecDeque;

/// Moves blocks over until they have so many bytes and no row is open behind them. Answers how many rows end in them, and
/// how many bytes they have.
fn move_blocks(from: &mut VecDeque<Sealed>, into: &mut VecDeque<Sealed>, want: u64) -> (u64, u64)
    requires empty { (into.old.items ≡ []) × (deque_len into.old ≡ 0) }
    requires room { deque_len from.old ≤ deque_capacity into.old }
    requires fits { (ends_of from.old.items < 2 ^ 64) × (lens_of from.old.items < 2 ^ 64) }
    ensures items { into.new.items ++ from.new.items ≡ from.old.items }
    ensures whole { IsWhole into.new.items ⊎ (from.new.items ≡ []) }
    ensures due { IsDue want into.new.items }
    ensures enough { (want ≤ result.1) ⊎ (from.new.items ≡ []) }
    ensures rows { result.0 ≡ ends_of into.new.items }
    ensures bytes { result.1 ≡ lens_of into.new.items }
{
    let mut rows: u64 = 0;
    let mut bytes: u64 = 0;
    let mut whole = true;
    while bytes < want || !whole {
        let Some(front) = from.pop_front() else {
            return (rows, bytes);
        };
        whole = front.ends > 0;
        rows += front.ends as u64;
        bytes += front.len as u64;
        into.push_back_reserved(front);
    }
    (rows, bytes)
}

/// Empty lists, so many, each with room for so many blocks.
fn make_rooms(alloc: Global, count: usize, blocks: usize) -> Result<Vec<VecDeque<Sealed>>, NoMemory>
    ensures { IfOk result (λ rooms. AreRooms blocks rooms.items × (vec_len rooms ≡ count)) }
{
    let mut rooms = Vec::with_capacity(alloc, count)?;
    for _room in 0..count {
        rooms.push_reserved(VecDeque::with_capacity(alloc, blocks)?);
    }
    Ok(rooms)
}

impl File {
    ghost use Rattle.block_pool.specs.Handles.{PoolName};
    ghost use Rattle.dia_file.specs.Files.{IsFileOf};

    /// Cuts a file off at the start, of so many bytes and the rest of the rows that end in its last block.
    fn cut_off(&mut self, room: VecDeque<Sealed>, want: u64) -> File
        requires empty { (room.items ≡ []) × (deque_len room ≡ 0) }
        requires room { length self.old.blocks ≤ deque_capacity room }
        ensures rows { result.rows ++ self.new.rows ≡ self.old.rows }
        ensures blocks { result.blocks ++ self.new.blocks ≡ self.old.blocks }
        ensures kinds { (result.kinds ≡ self.old.kinds) × (self.new.kinds ≡ self.old.kinds) }
        ensures enough { want ≤ length (encoded self.old.rows) → want ≤ length (encoded result.rows) }
        ensures few { length (encoded result.rows) ≤ want + longest_row + last_len result.blocks }
    {
        let mut room = room;
        let (rows, bytes) = move_blocks(&mut self.sealed, &mut room, want);
        self.rows -= rows;
        self.bytes -= bytes;
        File {
            kinds: self.kinds,
            rows,
            bytes,
            sealed: room,
        }
    }

    /// Cuts the file into `n` files, whose rows and blocks, one after the other, are its own. Cuts fall behind blocks in
    /// which a row ends, and about as many bytes go into each file: at least its share of what is left, and no more than that,
    /// the longest row and a block. They are of the pool that it is of.
    ///
    /// Without memory the file comes back as it was.
    pub fn split_blocks(self, n: u32) -> Result<Vec<File>, (File, NoMemory)>
        requires some { 1 ≤ n }
        ensures count { IfOk result (λ files. vec_len files ≡ n) }
        ensures rows { IfOk result (λ files. rows_of_files files.items ≡ self.rows) }
        ensures blocks { IfOk result (λ files. blocks_of_files files.items ≡ self.blocks) }
        ensures kinds { IfOk result (λ files. All (λ file. file.kinds ≡ self.kinds) files.items) }
        ensures own { IfOk result (λ files. (pool : PoolName) → IsFileOf pool self → All (λ file. IsFileOf pool file) files.items) }
        ensures even { IfOk result (λ files. AreEven files.items) }
        ensures returned { IfErr result (λ refused. refused.0 ≡ self) }
    {
        let alloc = *self.sealed.allocator();
        let count = n as usize;
        let Ok(files) = Vec::with_capacity(alloc, count) else {
            return Err((self, NoMemory));
        };
        let Ok(rooms) = make_rooms(alloc, count - 1, self.sealed.len()) else {
            return Err((self, NoMemory));
        };
        Ok(cut_all(self, rooms, files))
    }
}

/// Cuts a file off for each room, and the rest of the file is the last one.
fn cut_all(file: File, rooms: Vec<VecDeque<Sealed>>, files: Vec<File>) -> Vec<File>
    requires rooms { AreRooms (length file.blocks) rooms.items }
    requires empty { files.items ≡ [] }
    requires room { (vec_len files ≡ 0) × (vec_len rooms + 1 ≤ vec_capacity files) }
    ensures count { vec_len result ≡ vec_len rooms + 1 }
    ensures rows { rows_of_files result.items ≡ file.rows }
    ensures blocks { blocks_of_files result.items ≡ file.blocks }
    ensures kinds { All (λ one. one.kinds ≡ file.kinds) result.items }
    ensures even { AreEven result.items }
{
    let mut file = file;
    let mut files = files;
    let mut rooms = rooms;
    while let Some(room) = rooms.pop() {
        let want = file.bytes() / (rooms.len() as u64 + 2);
        files.push_reserved(file.cut_off(room, want));
    }
    files.push_reserved(file);
    files
}
