//! What no clause says: that the calls succeed where nothing fails, and what real files and streams do.

use dia_edge::*;
use std::test::Fail;
use std::{env, fs, process};

/// A name in the folder for temporary files that no other test has, with that folder as the current one.
fn scratch(rt: &HostRuntime, purpose: &str) -> Result<Name, Fail> {
    env::set_current_dir(rt, env::temp_dir(rt)?)?;
    let id = process::id(rt.process());
    let text = format!(in rt.alloc(); "dia_edge_{purpose}_{id}")?;
    Ok(Name::of(rt.alloc(), text.as_str())?)
}

#[test]
fn a_name_keeps_its_text(rt: HostRuntime) -> Result<(), Fail> {
    let name = Name::of(rt.alloc(), "naïve")?;
    assert_eq!(rt; name.copy()?.text(), "naïve");
    Ok(())
}

#[test]
fn a_sink_in_memory_takes_whole_pieces(rt: HostRuntime) -> Result<(), Fail> {
    let mut sink = MemSink::new(rt.alloc(), [2, 4].to_vec(rt.alloc())?);
    for (piece, answer) in [
        ("ab", Ok(())),
        ("cd", Err(Failed)),
        ("ef", Ok(())),
        ("gh", Err(Failed)),
    ] {
        assert_eq!(rt; sink.put(piece.as_bytes()), answer, "at {piece}");
    }
    assert_eq!(rt; sink.bytes(), b"abef".as_slice());
    assert_eq!(rt; sink.fault_count(), 2);
    Ok(())
}

#[test]
fn a_shelf_in_memory_is_read_in_steps(rt: HostRuntime) -> Result<(), Fail> {
    let alloc = rt.alloc();
    let mut files = Vec::new(alloc);
    files.push((Name::of(alloc, "a")?, b"12345".to_vec(alloc)?))?;
    files.push((Name::of(alloc, "a")?, b"6".to_vec(alloc)?))?;
    let mut shelf = MemShelf::new(files, 3, [3].to_vec(alloc)?);
    let mut into = [0u8; 8];
    assert_eq!(rt; shelf.open("a"), Ok(true));
    for answer in [Ok(3), Err(Failed), Ok(2), Ok(0)] {
        assert_eq!(rt; shelf.read(&mut into), answer);
    }
    assert_eq!(rt; into, *b"453\0\0\0\0\0");
    assert_eq!(rt; shelf.open("b"), Ok(false));
    let mut asked = Vec::new(alloc);
    for name in shelf.asked() {
        asked.push(name.text())?;
    }
    assert_eq!(rt; asked.as_slice(), ["a", "b"].as_slice());
    Ok(())
}

#[test]
fn a_disk_in_memory_keeps_its_slots_in_order(rt: HostRuntime) -> Result<(), Fail> {
    let alloc = rt.alloc();
    let mut disk = MemDisk::new(alloc, [4].to_vec(alloc)?);
    for (slot, bytes, answer) in [
        (7, "seven", Ok(())),
        (2, "two", Ok(())),
        (7, "SEVEN", Ok(())),
        (2, "TWO", Err(Failed)),
        (9, "nine", Ok(())),
    ] {
        assert_eq!(rt; disk.write(slot, bytes.as_bytes()), answer, "at {bytes}");
    }
    let mut held = Vec::new(alloc);
    for Held { slot, bytes } in disk.held() {
        held.push((*slot, bytes.len()))?;
        held.push((*slot, usize::from(bytes.first().copied().unwrap_or(0))))?;
    }
    let want = [(2, 3), (2, 116), (7, 5), (7, 83), (9, 4), (9, 110)];
    assert_eq!(rt; held.as_slice(), want.as_slice());
    assert_eq!(rt; (disk.write_count(), disk.fault_count()), (4, 1));
    Ok(())
}

/// Writes a slot, and reads a prefix of it back.
fn prefix_of_a_slot<D: Disk>(disk: &mut D, slot: u64) -> Result<[u8; 2], Failed> {
    let mut into = [0u8; 2];
    disk.write(slot, b"abc")?;
    disk.read(slot, &mut into)?;
    Ok(into)
}

#[test]
fn a_slot_is_read_from_its_first_byte(rt: HostRuntime) -> Result<(), Fail> {
    let mut memory = MemDisk::new(rt.alloc(), [4].to_vec(rt.alloc())?);
    assert_eq!(rt; prefix_of_a_slot(&mut memory, 5), Ok(*b"ab"));
    assert_eq!(rt; prefix_of_a_slot(&mut memory, 5), Err(Failed));
    let mut file = FileDisk::new(rt, scratch(&rt, "prefix")?);
    assert_eq!(rt; prefix_of_a_slot(&mut file, 5), Ok(*b"ab"));
    Ok(())
}

fn moves_between_threads<T: Send + Drop>(_: T) {}

fn is_shared_by_threads<T: Sync>(_: &T) {}

#[test]
fn an_open_gate_lets_through(rt: HostRuntime) {
    is_shared_by_threads(&OpenGate);
    OpenGate.at(&rt, 0, 1);
}

#[test]
fn disks_move_between_threads(rt: HostRuntime) -> Result<(), Fail> {
    moves_between_threads(MemDisk::new(rt.alloc(), Vec::new(rt.alloc())));
    moves_between_threads(FileDisk::new(rt, Name::of(rt.alloc(), "dia_edge_never_made")?));
    Ok(())
}

#[test]
fn a_folder_gives_its_files(rt: HostRuntime) -> Result<(), Fail> {
    let name = scratch(&rt, "input")?;
    let folder = scratch(&rt, "folder")?;
    fs::write(&rt, name.text(), "abcde")?;
    fs::create_dir(&rt, folder.text())?;
    let mut shelf = DirShelf::new(rt);
    let mut into = [0u8; 6];
    for (text, answer, count) in [
        (name.text(), Ok(true), 5),
        ("", Ok(false), 0),
        ("/etc/passwd", Ok(false), 0),
        ("..", Ok(false), 0),
        ("a/../b", Ok(false), 0),
        ("dia_edge_nowhere", Ok(false), 0),
        ("a\0b", Ok(false), 0),
        (folder.text(), Err(Failed), 0),
    ] {
        assert_eq!(rt; shelf.open(text), answer, "at {text:?}");
        assert_eq!(rt; shelf.read(&mut into), Ok(count), "at {text:?}");
    }
    assert_eq!(rt; into, *b"abcde\0");
    assert_eq!(rt; shelf.fault_count(), 1);
    fs::remove_file(&rt, name.text())?;
    fs::remove_dir(&rt, folder.text())?;
    Ok(())
}

#[test]
fn the_standard_streams_take_pieces(rt: HostRuntime) -> Result<(), Fail> {
    let mut out = StdSink::out(rt);
    let mut err = StdSink::err(rt);
    // More than a pipe takes at once, of a byte that a terminal doesn't show.
    let long = vec![in rt.alloc(); b'\r'; 200_000]?;
    assert_eq!(rt; out.put(long.as_slice()), Ok(()));
    assert_eq!(rt; err.put(b"to standard error\n"), Ok(()));
    assert_eq!(rt; (out.fault_count(), err.fault_count()), (0, 0));
    Ok(())
}

#[test]
fn a_file_keeps_slots_and_loses_its_name(rt: HostRuntime) -> Result<(), Fail> {
    let name = scratch(&rt, "disk")?;
    let mut disk = FileDisk::new(rt, name.copy()?);
    for (slot, bytes, answer) in [
        (2, "two", Ok(())),
        (0, "zero", Ok(())),
        (1 << 43, "at byte 2^63", Err(Failed)),
    ] {
        assert_eq!(rt; disk.write(slot, bytes.as_bytes()), answer, "at {bytes}");
    }
    assert_eq!(rt; fs::exists(&rt, name.text())?, false);
    let mut into = [0u8; 3];
    for (slot, answer, want) in [
        (0, Ok(()), *b"zer"),
        (2, Ok(()), *b"two"),
        (3, Err(Failed), *b"two"),
    ] {
        assert_eq!(rt; disk.read(slot, &mut into), answer, "at {slot}");
        assert_eq!(rt; into, want, "at {slot}");
    }
    assert_eq!(rt; (disk.write_count(), disk.fault_count()), (2, 2));
    Ok(())
}

#[test]
fn a_file_that_is_there_stays(rt: HostRuntime) -> Result<(), Fail> {
    let name = scratch(&rt, "taken")?;
    fs::write(&rt, name.text(), "somebody's")?;
    let mut disk = FileDisk::new(rt, name.copy()?);
    assert_eq!(rt; disk.write(0, b"zero"), Err(Failed));
    assert_eq!(rt; (disk.write_count(), disk.fault_count()), (0, 1));
    let kept = fs::read_to_string(&rt, name.text())?;
    assert_eq!(rt; kept.as_str(), "somebody's");
    fs::remove_file(&rt, name.text())?;
    Ok(())
}
