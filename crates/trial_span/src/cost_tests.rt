//! Cost files that are read, and those that are refused with their first fault.

use sq_machfile::{Machine, read_machine};
use sq_span::{Cost, Costs, read_cost};
use sq_text::{Arg, Fault, Stop};
use std::alloc::{AllocError, Global};
use std::process::Abort;
use std::test::Fail;

const MACHINE: &[u8] =
    b"machine 1; level host { capacity 64; } children 2; level core { capacity 32; }";

// A text, and what is read of it: the numbers of each level, or the code, the place and the argument of its fault.
const READ: [(&[u8], &str); 8] = [
    (
        b"cost 1; level host { row 0; byte 1; leaf 2; } level core { row 1000000; byte 1000000; leaf 1000000; }",
        "ok 0 1 2 1000000 1000000 1000000",
    ),
    (
        b"cost 01; // by level\nlevel host{row 007;byte 0;leaf 0;}/* */level core{row 0;byte 0;leaf 0;}\n",
        "ok 7 0 0 0 0 0",
    ),
    (b"", "Syntax 1:1"),
    (b"// nothing\n/* but comments */", "Syntax 2:19"),
    (b"cost 1;", "Syntax 1:8"),
    (
        b"cost 2; level host { row 0; byte 0; leaf 0; }",
        "Syntax 1:6",
    ),
    (
        b"cost 1; level host { row -1; byte 0; leaf 0; }",
        "Syntax 1:26",
    ),
    (b"cost 1; level host { row 0; byte 0; }", "Syntax 1:37"),
];

const LEVELS: [(&[u8], &str); 8] = [
    (
        b"cost 1; level host { row 0; byte 0; leaf 0; }",
        "LevelMissing 1:46 core",
    ),
    (
        b"cost 1; level core { row 0; byte 0; leaf 0; } level host { row 0; byte 0; leaf 0; }",
        "LevelName 1:15 core",
    ),
    (
        b"cost 1; level host { row 0; byte 0; leaf 0; } level cor { row 0; byte 0; leaf 0; }",
        "LevelName 1:53 cor",
    ),
    (
        b"cost 1; level host { row 0; byte 0; leaf 0; } level core { row 0; byte 0; leaf 0; } level core { row 0; byte 0; leaf 0; }",
        "LevelName 1:91 core",
    ),
    (
        b"cost 1; level chip { row 0; byte 0; leaf 0; }",
        "LevelName 1:15 chip",
    ),
    (
        b"cost 1; level host { row 1000001; byte 0; leaf 0; } level core { row 0; byte 0; leaf 0; }",
        "LimitCost 1:26 1000001",
    ),
    (
        b"cost 1; level host { row 0; byte 0; leaf 0; } level core { row 0; byte 0; leaf 001000001; }",
        "LimitCost 1:80 1000001",
    ),
    (
        b"cost 1; level host { row 0; byte 12345678901234567890; leaf 0; } ?",
        "NumberTooBig 1:34",
    ),
];

fn machine(rt: &impl Abort, alloc: Global) -> Machine {
    read_machine(alloc, MACHINE).expect(rt, "a machine")
}

fn write_costs(out: &mut String, costs: &[Cost]) -> Result<(), Fail> {
    write!(out, "ok")?;
    for cost in costs {
        write!(out, " {} {} {}", cost.row, cost.byte, cost.leaf)?;
    }
    Ok(())
}

fn write_fault(out: &mut String, fault: &Fault) -> Result<(), Fail> {
    write!(out, "{:?}", fault.code)?;
    if let Some(place) = fault.place {
        write!(out, " {}:{}", place.line, place.col)?;
    }
    match fault.args.get(0) {
        Some(Arg::Word(name)) => {
            let name = str::from_utf8(name.bytes()).unwrap_or("?");
            write!(out, " {name}")?;
        }
        Some(Arg::Number(number)) => write!(out, " {number}")?,
        _ => {}
    }
    Ok(())
}

fn shown(alloc: Global, read: Result<Costs, Stop>) -> Result<String, Fail> {
    let mut out = String::new(alloc);
    match read {
        Ok(costs) => write_costs(&mut out, costs.as_slice())?,
        Err(Stop::Refused(fault)) => write_fault(&mut out, &fault)?,
        Err(Stop::NoMemory) => write!(out, "no memory")?,
    }
    Ok(out)
}

fn all_are(rt: &impl Abort, alloc: Global, rows: &[(&[u8], &str)]) -> Result<(), Fail> {
    let machine = machine(rt, alloc);
    for (text, wanted) in rows {
        let found = shown(alloc, read_cost(alloc, text, &machine))?;
        assert_eq!(rt; found.as_str(), *wanted);
    }
    Ok(())
}

#[test]
fn texts_of_the_grammar_are_read(rt: HostRuntime) -> Result<(), Fail> {
    all_are(&rt, rt.alloc(), &READ)
}

#[test]
fn entries_are_the_levels_of_the_machine(rt: HostRuntime) -> Result<(), Fail> {
    all_are(&rt, rt.alloc(), &LEVELS)
}

// A text of this many bytes, which are blanks behind the entries of both levels.
fn padded(alloc: Global, length: usize) -> Result<Vec<u8>, AllocError> {
    let mut text = Vec::new(alloc);
    text.extend_from_slice(
        b"cost 1; level host { row 1; byte 2; leaf 3; } level core { row 4; byte 5; leaf 6; }",
    )?;
    let left = length.saturating_sub(text.len());
    for _blank in 0..left {
        text.push(b' ')?;
    }
    Ok(text)
}

#[test]
fn a_file_of_the_greatest_length_and_one_byte_more(rt: HostRuntime) -> Result<(), Fail> {
    let machine = machine(&rt, rt.alloc());
    let most = padded(rt.alloc(), 1_048_576)?;
    let found = shown(rt.alloc(), read_cost(rt.alloc(), &most, &machine))?;
    assert_eq!(rt; found.as_str(), "ok 1 2 3 4 5 6");
    let more = padded(rt.alloc(), 1_048_577)?;
    let refused = shown(rt.alloc(), read_cost(rt.alloc(), &more, &machine))?;
    assert_eq!(rt; refused.as_str(), "LimitFile");
    Ok(())
}

#[test]
fn a_level_without_a_cost_weighs_nothing(rt: HostRuntime) -> Result<(), Fail> {
    let machine = machine(&rt, rt.alloc());
    let text = padded(rt.alloc(), 0)?;
    let costs = read_cost(rt.alloc(), &text, &machine).expect(&rt, "costs");
    let core = Cost {
        row: 4,
        byte: 5,
        leaf: 6,
    };
    let none = Cost {
        row: 0,
        byte: 0,
        leaf: 0,
    };
    assert_eq!(rt; costs.level(1), core);
    assert_eq!(rt; costs.level(2), none);
    Ok(())
}
