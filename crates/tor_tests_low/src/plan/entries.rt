//! Rows of entries, worked out by hand.
ghost use Rattle.std.specs.Prelude.{◌≡◌, false};
ghost use Rattle.tor_v1.specs.Entries.{pad_entry};

use crate::plan::plans::is_made;
use crate::shared::path;
use std::alloc::AllocError;
use std::process::Abort;
use tor_plan::Plan;
use tor_tree::Kind;
use tor_v1::{self, Entry};

/// The entry of a file in the top folder.
fn file_entry<R: AllocGlobal + Abort>(rt: &R, name: &str, length: u64) -> Entry
    ensures { (result.length ≡ length) × (result.pad ≡ false) × (result.exec ≡ false) × (result.hidden ≡ false) }
{
    Entry {
        path: path(rt.alloc(), name).expect(rt, "memory"),
        length,
        pad: false,
        exec: false,
        hidden: false,
    }
}

/// The entry of padding.
fn padding<R: AllocGlobal + Abort>(rt: &R, length: u64) -> Entry
    ensures { result ≡ pad_entry length }
{
    tor_v1::pad_entry(rt.alloc(), length).expect(rt, "memory")
}

/// Padding first, and over a whole unit; the second file is empty.
fn joined_plan<R: AllocGlobal + Abort>(rt: &R) -> Result<Plan, AllocError> {
    let entries = vec![in rt.alloc();
        padding(rt, 3),
        file_entry(rt, "a", 2),
        file_entry(rt, "b", 0),
        padding(rt, 9),
        file_entry(rt, "c", 1),
    ]?;
    Plan::of_entries(rt.alloc(), &entries, Kind::V1, 4, 1)
}

const JOINED: &str = "[=3 0:0+1 ][ 0:1+1=3 ][=4 ][=2 2:0+1 ]";

/// Padding after the last file too.
fn hybrid_plan<R: AllocGlobal + Abort>(rt: &R) -> Result<Plan, AllocError> {
    let entries = vec![in rt.alloc();
        file_entry(rt, "a", 40000),
        file_entry(rt, "b", 0),
        padding(rt, 9152),
        file_entry(rt, "c", 5),
        padding(rt, 16379),
    ]?;
    Plan::of_entries(rt.alloc(), &entries, Kind::Hybrid, 16384, 2)
}

const HYBRID: &str = "[ 0:0+32768 ][ 0:32768+7232=9152 ][ 2:0+5=16379 ]";

#[test]
fn cuts_entries_with_padding_between_them_and_at_the_end(rt: HostRuntime) {
    assert!(rt; is_made(rt.alloc(), joined_plan(&rt), JOINED, "", &[2, 0, 1]));
    assert!(rt;
        is_made(
            rt.alloc(),
            hybrid_plan(&rt),
            HYBRID,
            "0+2^1 ",
            &[40000, 0, 5]
        )
    );
}
