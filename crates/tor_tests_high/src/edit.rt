//! The test of `tor_edit`: a tracker that no word of the program gives. Others are in `tests/trackers.py`.
use crate::check::telling::are;
use std::alloc::Global;
use tor_edit::with_tracker;

const TORRENT: &[u8] =
    b"d8:announced1:ai0ee4:infod6:lengthi0e4:name1:a12:piece lengthi1e6:pieces0:ee";

const WITH_TRACKER: &[u8] =
    b"d8:announce3:\xff:\x004:infod6:lengthi0e4:name1:a12:piece lengthi1e6:pieces0:ee";

fn is_put(alloc: Global) -> bool {
    are(
        with_tracker(alloc, TORRENT, Some(b"\xff:\x00")),
        WITH_TRACKER,
    )
}

#[test]
fn puts_any_bytes_as_the_tracker(rt: HostRuntime) {
    assert!(rt; is_put(rt.alloc()));
}
