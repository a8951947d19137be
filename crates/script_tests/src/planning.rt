//! Worked plans.

use lop_chain::Root;
use script_defs::Word;
use script_read::read_script;
use stage_builder::{Stage, Task, build};
use std::alloc::Global;
use std::test::Fail;

/// What the tests see of an operand.
#[derive(Clone, Copy, Debug, PartialEq, Eq)]
struct Over {
    root: Root,
    last: bool,
    local_lines: usize,
}

/// What the tests see of a stage.
#[derive(Clone, Copy, Debug, PartialEq, Eq)]
struct Row {
    line: u32,
    word: Word,
    readers: u32,
    operand: Option<Over>,
}

fn row_of(stage: &Stage) -> Row {
    let operand = match &stage.task {
        Task::Read { .. } => None,
        Task::Cache { operand, .. } | Task::Act { operand, .. } => Some(Over {
            root: operand.root,
            last: operand.last,
            local_lines: operand.chain.len(),
        }),
    };
    Row {
        line: stage.line,
        word: stage.word,
        readers: stage.readers,
        operand,
    }
}

fn read(line: u32, readers: u32) -> Row {
    Row {
        line,
        word: Word::Lines,
        readers,
        operand: None,
    }
}

fn act(line: u32, word: Word, root: Root, last: bool, local_lines: usize) -> Row {
    Row {
        line,
        word,
        readers: 0,
        operand: Some(Over {
            root,
            last,
            local_lines,
        }),
    }
}

fn cache(line: u32, readers: u32, root: Root, last: bool, local_lines: usize) -> Row {
    Row {
        readers,
        ..act(line, Word::Cache, root, last, local_lines)
    }
}

/// The plan of a script.
fn plan_of(alloc: Global, script: &[u8]) -> Result<Vec<Row>, Fail> {
    let script = read_script(alloc, script)?;
    let plan = build(alloc, &script)?;
    let mut rows = Vec::new(alloc);
    for stage in &plan.stages {
        rows.push(row_of(stage))?;
    }
    Ok(rows)
}

#[test]
fn plans_are_those_of_their_scripts(rt: HostRuntime) -> Result<(), Fail> {
    let rows = plan_of(
        rt.alloc(),
        b"t = lines in\nw = flatmap t words 0\nsize w\nprint t\n",
    )?;
    let want = [
        read(1, 2),
        act(3, Word::Size, Root::Stored(1), false, 1),
        act(4, Word::Print, Root::Stored(1), true, 0),
    ];
    assert_eq!(rt; rows.as_slice(), want.as_slice());

    let rows = plan_of(
        rt.alloc(),
        b"a = lines x\nb = lines y\nc = lines z\n\nsize b\nprint a\n",
    )?;
    let want = [
        read(2, 1),
        act(5, Word::Size, Root::Stored(2), true, 0),
        read(1, 1),
        act(6, Word::Print, Root::Stored(1), true, 0),
    ];
    assert_eq!(rt; rows.as_slice(), want.as_slice());

    let count = Root::Count { line: 1, rows: 5 };
    let rows = plan_of(
        rt.alloc(),
        b"n = generate 5\ne = filter n eq 0 mod f0 2\nsum e 0\nsize n\n",
    )?;
    let want = [
        act(3, Word::Sum, count, false, 1),
        act(4, Word::Size, count, false, 0),
    ];
    assert_eq!(rt; rows.as_slice(), want.as_slice());
    Ok(())
}

#[test]
fn a_cache_is_a_stage_and_a_root(rt: HostRuntime) -> Result<(), Fail> {
    let rows = plan_of(
        rt.alloc(),
        b"t = lines in\nm = map t f0 len f0\nk = cache m\nsize k\ns = map k f1\nsum s 0\nprint t\n",
    )?;
    let want = [
        read(1, 2),
        cache(3, 2, Root::Stored(1), false, 1),
        act(4, Word::Size, Root::Stored(3), false, 0),
        act(6, Word::Sum, Root::Stored(3), true, 1),
        act(7, Word::Print, Root::Stored(1), true, 0),
    ];
    assert_eq!(rt; rows.as_slice(), want.as_slice());

    let count = Root::Count { line: 1, rows: 5 };
    let rows = plan_of(
        rt.alloc(),
        b"n = generate 5\nk = cache n\nc = cache k\nsum c 0\nsize k\n",
    )?;
    let want = [
        cache(2, 2, count, false, 0),
        cache(3, 1, Root::Stored(2), false, 0),
        act(4, Word::Sum, Root::Stored(3), true, 0),
        act(5, Word::Size, Root::Stored(2), true, 0),
    ];
    assert_eq!(rt; rows.as_slice(), want.as_slice());
    Ok(())
}

#[test]
fn many_local_lines_stand_over_one_root(rt: HostRuntime) -> Result<(), Fail> {
    let alloc = rt.alloc();
    let mut script = format!(in alloc; "l0 = generate 1\n")?;
    for line in 1..251u32 {
        let under = line - 1;
        script.push_str(format!(in alloc; "l{line} = filter l{under} 1\n")?.as_str())?;
    }
    script.push_str("size l250\n")?;
    let rows = plan_of(alloc, script.as_bytes())?;
    let want = [act(
        252,
        Word::Size,
        Root::Count { line: 1, rows: 1 },
        false,
        250,
    )];
    assert_eq!(rt; rows.as_slice(), want.as_slice());
    Ok(())
}
