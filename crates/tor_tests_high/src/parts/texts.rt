//! Lots as bytes, spelled by hand (BEP 3, "bencoding"). What is no lot is in `tests/joining.py`.

use std::alloc::{AllocError, Global};
use tor_engine::PieceRow;
use tor_parts::{Lot, read_lot, write_lot};

const HASH: [u8; 32] = *b"hhhhhhhhhhhhhhhhhhhhhhhhhhhhhhhh";

const PLAN: [u8; 32] = *b"pppppppppppppppppppppppppppppppp";

/// The number of a lot, how many there are, how many hashes and pieces it has, and its bytes.
type Row = (u32, u32, usize, usize, &'static [u8]);

const WRITTEN: &[Row] = &[
    (
        0,
        1,
        0,
        0,
        b"d6:hashes0:4:parti0e5:partsi1e6:pieces0:4:plan32:ppppppppppppppppppppppppppppppppe",
    ),
    (
        2,
        65536,
        2,
        1,
        b"d6:hashes64:hhhhhhhhhhhhhhhhhhhhhhhhhhhhhhhhhhhhhhhhhhhhhhhhhhhhhhhhhhhhhhhh4:parti2e5:partsi65536e\
6:pieces20:ssssssssssssssssssss4:plan32:ppppppppppppppppppppppppppppppppe",
    ),
];

fn lot_of(alloc: Global, row: &Row) -> Result<Lot, AllocError> {
    let (number, lots, hashes, pieces, _) = *row;
    Ok(Lot {
        number,
        lots,
        plan: PLAN,
        row: PieceRow {
            hashes: vec![in alloc; HASH; hashes]?,
            pieces: vec![in alloc; b's'; pieces.saturating_mul(20)]?,
        },
    })
}

fn is_same(lot: &Lot, other: &Lot) -> bool {
    (lot.number, lot.lots, lot.plan) == (other.number, other.lots, other.plan)
        && lot.row.hashes.as_slice() == other.row.hashes.as_slice()
        && lot.row.pieces.as_slice() == other.row.pieces.as_slice()
}

fn is_written(alloc: Global, row: &Row) -> bool {
    let Ok(lot) = lot_of(alloc, row) else {
        return false;
    };
    match (write_lot(alloc, &lot), read_lot(alloc, row.4)) {
        (Ok(bytes), Ok(Some(read))) => bytes.as_slice() == row.4 && is_same(&lot, &read),
        _ => false,
    }
}

#[test]
fn writes_lots_and_reads_them_back(rt: HostRuntime) {
    for row in WRITTEN {
        assert!(rt; is_written(rt.alloc(), row));
    }
}
