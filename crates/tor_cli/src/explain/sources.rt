//! Which places a request names.

use crate::command::Request;
use crate::make::options::MakeOptions;

/// PATH, in which files are looked for.
pub fn place_of<'a>(request: &Request<'a>) -> Option<&'a str> {
    match request {
        Request::Make(options) => options.place,
        Request::Plan(options) => Some(options.place),
        Request::Lot(options) => Some(options.place),
        Request::Scan(options) => Some(options.place),
        Request::Recheck(options) => Some(options.place),
        Request::RecheckLot(options) => Some(options.place),
        Request::Extra(options) => Some(options.place),
        _ => None,
    }
}

/// The file with the torrent.
pub fn torrent_of<'a>(request: &Request<'a>) -> Option<&'a str> {
    match request {
        Request::Check(options) => Some(options.torrent),
        Request::Magnet(options) => Some(options.torrent),
        Request::Edit(options) => Some(options.torrent),
        Request::Prove(options) => Some(options.torrent),
        Request::Recheck(options) => Some(options.torrent),
        Request::RecheckLot(options) => Some(options.torrent),
        Request::Extra(options) => Some(options.torrent),
        _ => None,
    }
}

/// What a torrent is to have.
pub fn torrent_options<'r, 'a>(request: &'r Request<'a>) -> Option<&'r MakeOptions<'a>> {
    match request {
        Request::Make(options) => Some(options),
        Request::Plan(options) => Some(&options.torrent),
        _ => None,
    }
}

/// The word for the list of files: a file, or `-`.
pub fn list_of<'a>(request: &Request<'a>) -> Option<&'a str> {
    match request {
        Request::Scan(options) => options.list,
        other => torrent_options(other)?.list,
    }
}

/// The other files that are read: the plan, the file of letters, the proof.
pub fn input_of<'a>(request: &Request<'a>) -> Option<&'a str> {
    match request {
        Request::Lot(options) => Some(options.plan),
        Request::Join(options) => Some(options.plan),
        Request::Verify(options) => Some(options.proof),
        other => torrent_options(other)?.attrs,
    }
}

/// The file with the bytes of a piece.
pub fn piece_of<'a>(request: &Request<'a>) -> Option<&'a str> {
    match request {
        Request::Verify(options) => options.bytes,
        _ => None,
    }
}

/// The file that the bytes go to.
pub fn out_of<'a>(request: &Request<'a>) -> Option<&'a str> {
    match request {
        Request::Make(options) => options.out,
        Request::Plan(options) => options.torrent.out,
        Request::Lot(options) => options.out,
        Request::Join(options) => options.out,
        Request::Edit(options) => options.out,
        _ => None,
    }
}
