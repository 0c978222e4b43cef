//! Units of work for lists of files, worked out by hand.

use crate::shared::{Files, is, list_of, plan_of, thousand_files};
use std::alloc::{AllocError, Global};
use std::fmt::Write;
use tor_plan::{Forest, Part, Plan, PlanUnit};
use tor_tree::{FileList, Kind};

/// A plan of joined files, whose pieces may have any length.
fn joined_plan_of(
    alloc: Global,
    list: &FileList,
    piece_length: u64,
    span: u32,
) -> Result<Plan, AllocError> {
    if piece_length < 1 || piece_length > 1 << 30 {
        return Err(AllocError);
    }
    if !span.is_power_of_two() || span < 1 || span > 1024 {
        return Err(AllocError);
    }
    Plan::new(alloc, list, Kind::V1, piece_length, span)
}

/// A unit's part as file, start and length, and zeros with an equals sign.
fn push_part(text: &mut String, part: &Part) -> Result<(), AllocError> {
    let (file, start, length, zeros) = (part.file, part.start, part.length, part.zeros);
    match zeros {
        0 => write!(text, " {file}:{start}+{length}"),
        _ => write!(text, " {file}:{start}+{length}={zeros}"),
    }
}

/// A unit's bracket, and its zeros with an equals sign.
fn push_front(text: &mut String, zeros: u64) -> Result<(), AllocError> {
    match zeros {
        0 => text.push('['),
        _ => write!(text, "[={zeros}"),
    }
}

/// A unit in brackets: its zeros, and its parts.
fn push_unit(text: &mut String, unit: &PlanUnit) -> Result<(), AllocError> {
    push_front(text, unit.zeros)?;
    for part in unit.parts.as_slice() {
        push_part(text, part)?;
    }
    text.push_str(" ]")
}

fn push_units(text: &mut String, units: &[PlanUnit]) -> Result<(), AllocError> {
    for unit in units {
        push_unit(text, unit)?;
    }
    Ok(())
}

pub(crate) fn units_text(alloc: Global, units: &[PlanUnit]) -> Result<String, AllocError> {
    let mut text = String::new(alloc);
    push_units(&mut text, units)?;
    Ok(text)
}

/// Each tree as its first unit, its number of units and its level.
fn push_trees(text: &mut String, forest: &Forest) -> Result<(), AllocError> {
    for tree in &forest.trees {
        let (first, count, level) = (tree.first, tree.count, tree.level);
        write!(text, "{first}+{count}^{level} ")?;
    }
    Ok(())
}

fn trees_text(alloc: Global, forest: &Forest) -> Result<String, AllocError> {
    let mut text = String::new(alloc);
    push_trees(&mut text, forest)?;
    Ok(text)
}

/// Two files with bytes and an empty one between.
const THREE: Files = &[("a", 40000), ("b", 0), ("c", 16384)];

/// Whether these are the units and the trees of a plan.
pub(crate) fn is_plan(alloc: Global, plan: &Plan, units: &str, trees: &str) -> bool {
    is(units_text(alloc, plan.units()), units) && is(trees_text(alloc, plan.forest()), trees)
}

/// Whether there is a plan, and these are its units, its trees, and the lengths of its files.
pub(crate) fn is_made(
    alloc: Global,
    made: Result<Plan, AllocError>,
    units: &str,
    trees: &str,
    lengths: &[u64],
) -> bool {
    match made {
        Ok(plan) => is_plan(alloc, &plan, units, trees) && plan.lengths() == lengths,
        Err(_) => false,
    }
}

/// The plan of files.
fn plan_of_files(
    alloc: Global,
    files: Files,
    kind: Kind,
    piece_length: u64,
    span: u32,
) -> Result<Plan, AllocError> {
    let list = list_of(alloc, files)?;
    plan_of(alloc, &list, kind, piece_length, span)
}

/// Files, kind and span; the units and the trees.
type Cut = (Files, Kind, u32, &'static str, &'static str);

fn is_plan_of_row(alloc: Global, plan: &Plan, row: &Cut) -> bool {
    plan.kind() == row.1
        && plan.piece_length() == 16384
        && plan.lengths().len() == row.0.len()
        && is_plan(alloc, plan, row.3, row.4)
}

fn is_cut(alloc: Global, row: &Cut) -> bool {
    match plan_of_files(alloc, row.0, row.1, 16384, row.2) {
        Ok(plan) => is_plan_of_row(alloc, &plan, row),
        Err(_) => false,
    }
}

fn are_cut(alloc: Global) -> bool {
    for row in CUTS {
        if !is_cut(alloc, row) {
            return false;
        }
    }
    true
}

/// Files of four bytes, of none and of five.
fn joined_files(alloc: Global) -> Result<Plan, AllocError> {
    let list = list_of(alloc, &[("a", 4), ("b", 0), ("c", 5)])?;
    joined_plan_of(alloc, &list, 3, 1)
}

const JOINED: &str = "[ 0:0+3 ][ 0:3+1 2:0+2 ][ 2:2+3 ]";

fn are_joined(alloc: Global) -> bool {
    is_made(alloc, joined_files(alloc), JOINED, "", &[4, 0, 5])
}

/// The kind, and how many units and trees: the counts are those of a sum by another program.
const COUNTS: &[(Kind, usize, usize)] = &[
    (Kind::V1, 3049, 0),
    (Kind::V2, 3555, 836),
    (Kind::Hybrid, 3555, 836),
];

fn has_counts(alloc: Global, list: &FileList, row: &(Kind, usize, usize)) -> bool {
    match plan_of(alloc, list, row.0, 16384, 1) {
        Ok(plan) => plan.units().len() == row.1 && plan.forest().trees.len() == row.2,
        Err(_) => false,
    }
}

fn has_each_counts(alloc: Global) -> bool {
    let Ok(list) = thousand_files(alloc, "", 100) else {
        return false;
    };
    for row in COUNTS {
        if !has_counts(alloc, &list, row) {
            return false;
        }
    }
    true
}

const LONGEST: Files = &[("a", 1 << 50)];

/// Whether the longest file is cut into 1,024 units, and these are its trees.
fn is_longest(alloc: Global, kind: Kind, trees: &str) -> bool {
    match plan_of_files(alloc, LONGEST, kind, 1 << 30, 1024) {
        Ok(plan) => plan.units().len() == 1024 && is(trees_text(alloc, plan.forest()), trees),
        Err(_) => false,
    }
}

const CUTS: &[Cut] = &[
    (
        THREE,
        Kind::V2,
        1,
        "[ 0:0+16384 ][ 0:16384+16384 ][ 0:32768+7232 ][ 2:0+16384 ]",
        "0+3^0 ",
    ),
    (
        THREE,
        Kind::V2,
        2,
        "[ 0:0+32768 ][ 0:32768+7232 ][ 2:0+16384 ]",
        "0+2^1 ",
    ),
    (THREE, Kind::V2, 4, "[ 0:0+40000 ][ 2:0+16384 ]", ""),
    (
        THREE,
        Kind::Hybrid,
        1,
        "[ 0:0+16384 ][ 0:16384+16384 ][ 0:32768+7232=9152 ][ 2:0+16384 ]",
        "0+3^0 ",
    ),
    (
        THREE,
        Kind::Hybrid,
        2,
        "[ 0:0+32768 ][ 0:32768+7232=9152 ][ 2:0+16384 ]",
        "0+2^1 ",
    ),
    (
        THREE,
        Kind::V1,
        1,
        "[ 0:0+16384 ][ 0:16384+16384 ][ 0:32768+7232 2:0+9152 ][ 2:9152+7232 ]",
        "",
    ),
    (
        THREE,
        Kind::V1,
        2,
        "[ 0:0+32768 ][ 0:32768+7232 2:0+16384 ]",
        "",
    ),
    (&[("a", 16384)], Kind::V2, 1, "[ 0:0+16384 ]", ""),
    (
        &[("a", 16385)],
        Kind::V2,
        1,
        "[ 0:0+16384 ][ 0:16384+1 ]",
        "0+2^0 ",
    ),
    (&[("a", 0), ("b", 0)], Kind::Hybrid, 1, "", ""),
    (&[("a", 0), ("b", 0)], Kind::V1, 1, "", ""),
    (&[("a", 5), ("b", 0)], Kind::Hybrid, 1, "[ 0:0+5 ]", ""),
    (
        &[("a", 5), ("b", 7), ("c", 16384), ("d", 1)],
        Kind::V1,
        1,
        "[ 0:0+5 1:0+7 2:0+16372 ][ 2:16372+12 3:0+1 ]",
        "",
    ),
    (
        &[("a", 16385), ("b", 32769)],
        Kind::Hybrid,
        1,
        "[ 0:0+16384 ][ 0:16384+1=16383 ][ 1:0+16384 ][ 1:16384+16384 ][ 1:32768+1 ]",
        "0+2^0 2+3^0 ",
    ),
];

fn all_are_cut(alloc: Global) -> bool {
    are_cut(alloc)
        && are_joined(alloc)
        && has_each_counts(alloc)
        && is_longest(alloc, Kind::V2, "0+1024^26 ")
        && is_longest(alloc, Kind::V1, "")
}

#[test]
fn cuts_files_by_kind_and_span(rt: HostRuntime) {
    assert!(rt; all_are_cut(rt.alloc()));
}
