//! Pieces of units, worked out by hand.
ghost use Rattle.std.specs.Prelude.{◌≡◌, ◌+◌, ◌<◌, ◌^◌, true, All};

use crate::plan::plans::units_text;
use crate::shared::is;
use std::alloc::{AllocError, Global};
use tor_plan::{Part, Parts, PlanUnit};

/// Whether the parts begin and end before byte 2^33 of their files.
fn are_small(parts: &[Part]) -> bool
    ensures { result ≡ true → All (λ part. part.start + part.length < 2 ^ 64) parts.now }
{
    parts
        .iter()
        .all(|part| part.start < 1 << 32 && part.length < 1 << 32)
}

/// Parts as file, start, length and zeros.
type Numbers = &'static [(u64, u64, u64, u64)];

fn add_parts(numbers: Numbers, parts: &mut Vec<Part>) -> Result<(), AllocError> {
    for (file, start, length, zeros) in numbers {
        parts.push(Part {
            file: *file,
            start: *start,
            length: *length,
            zeros: *zeros,
        })?;
    }
    Ok(())
}

fn parts_of(alloc: Global, numbers: Numbers) -> Result<Vec<Part>, AllocError> {
    let mut parts = Vec::new(alloc);
    add_parts(numbers, &mut parts)?;
    Ok(parts)
}

/// The pieces of four bytes of a unit.
fn pieces_text(alloc: Global, unit: &PlanUnit) -> Result<String, AllocError> {
    if !are_small(unit.parts.as_slice()) {
        return Err(AllocError);
    }
    let pieces = unit.pieces(alloc, 4)?;
    units_text(alloc, &pieces)
}

/// The zeros before the parts of a unit, the parts, and the pieces.
type Row = (u64, Numbers, &'static str);

const ROWS: &[Row] = &[
    (9, &[(3, 10, 5, 0)], "[=4 ][=4 ][=1 3:10+3 ][ 3:13+2 ]"),
    (0, &[(7, 5, 2, 0), (8, 0, 3, 0)], "[ 7:5+2 8:0+2 ][ 8:2+1 ]"),
    (
        0,
        &[(2, 100, 9, 4), (4, 0, 1, 0)],
        "[ 2:100+4 ][ 2:104+4 ][ 2:108+1=3 ][=1 4:0+1 ]",
    ),
    (0, &[], ""),
];

/// Whether a unit of these parts has the pieces of a row.
fn is_row(alloc: Global, parts: Vec<Part>, row: &Row) -> bool {
    let (zeros, parts) = (row.0, Parts::new(parts));
    is(pieces_text(alloc, &PlanUnit { zeros, parts }), row.2)
}

fn has_pieces(alloc: Global, row: &Row) -> bool {
    match parts_of(alloc, row.1) {
        Ok(parts) => is_row(alloc, parts, row),
        Err(_) => false,
    }
}

#[test]
fn cuts_units_into_pieces(rt: HostRuntime) {
    for row in ROWS {
        assert!(rt; has_pieces(rt.alloc(), row));
    }
}
