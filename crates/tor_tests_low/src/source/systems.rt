//! Scans of a system that has what no test can make.
use crate::shared::{are, is_shown};
use std::alloc::{AllocError, Allocator, Global};
use std::fs::{File, Metadata, OpenOptions};
use std::io;
use std::io::{Cursor, Read};
use std::rt::Files;
use tor_source::FolderSource;
use tor_tree::FilePath;

// A system that has what no test can make: in its folder `top` are these names, each ended by a zero byte. A name that
// ends in `file` is a file, in `folder` an empty folder, in `locked` a folder that may not be read. All others stand
// for a FIFO. Where the listing breaks, a read after its last name fails.
#[derive(Clone, Drop)]
struct Listed {
    rt: HostRuntime,
    names: Vec<u8>,
    breaks: bool,
}

#[derive(Drop)]
struct Listing {
    names: Cursor<Vec<u8>>,
    breaks: bool,
}

impl Read for Listing {
    fn read(&mut self, buffer: &mut [u8]) -> io::Result<usize> {
        match self.names.read(buffer)? {
            0 if self.breaks => Err(io::Error::from(io::ErrorKind::TimedOut)),
            count => Ok(count),
        }
    }
}

impl Alloc for Listed {
    type A = Global;

    fn alloc(&self) -> Global {
        self.rt.alloc()
    }
}

impl Files for Listed {
    type File = File;

    type Dir = Listing;

    fn open_file(&self, _how: &OpenOptions, _path: &str) -> io::Result<File> {
        Err(io::Error::from(io::ErrorKind::PermissionDenied))
    }

    fn open_dir(&self, path: &str) -> io::Result<Listing> {
        if path.ends_with("locked") {
            return Err(io::Error::from(io::ErrorKind::PermissionDenied));
        }
        let names: &[u8] = if path == "top/" { &self.names } else { b"" };
        Ok(Listing {
            names: Cursor::new(Vec::from_slice(self.alloc(), names)?),
            breaks: self.breaks,
        })
    }

    fn metadata(&self, path: &str) -> io::Result<Metadata> {
        self.symlink_metadata(path)
    }

    fn symlink_metadata(&self, path: &str) -> io::Result<Metadata> {
        let is_file = path.ends_with("file");
        let is_folder = path == "top" || path.ends_with("folder") || path.ends_with("locked");
        self.rt.metadata(match (is_file, is_folder) {
            (true, _) => "/proc/self/exe",
            (_, true) => "/",
            _ => "/dev/null",
        })
    }

    fn copy(&self, from: &str, to: &str) -> io::Result<u64> {
        self.rt.copy(from, to)
    }

    fn rename(&self, from: &str, to: &str) -> io::Result<()> {
        self.rt.rename(from, to)
    }

    fn remove_file(&self, path: &str) -> io::Result<()> {
        self.rt.remove_file(path)
    }

    fn create_dir(&self, path: &str) -> io::Result<()> {
        self.rt.create_dir(path)
    }

    fn remove_dir(&self, path: &str) -> io::Result<()> {
        self.rt.remove_dir(path)
    }

    fn remove_dir_all<B: Allocator>(&self, alloc: B, path: &str) -> io::Result<()> {
        self.rt.remove_dir_all(alloc, path)
    }
}

fn system_of(rt: &HostRuntime, names: &[u8], breaks: bool) -> io::Result<Listed> {
    Ok(Listed {
        rt: rt.clone()?,
        names: Vec::from_slice(rt.alloc(), names)?,
        breaks,
    })
}

// The names of each path joined by slashes, and a space after each path.
fn shown(alloc: Global, paths: &[FilePath]) -> Result<Vec<u8>, AllocError> {
    let mut text = Vec::new(alloc);
    for path in paths {
        for name in path.names() {
            text.extend_from_slice(b"/")?;
            text.extend_from_slice(name.as_bytes())?;
        }
        text.extend_from_slice(b" ")?;
    }
    Ok(text)
}

// Whether a scan of this path finds the paths that are shown so, or has the fault that is told so.
fn is_scan(system: &Listed, path: &str, wanted: &str) -> bool {
    let alloc = system.alloc();
    match FolderSource::scan(system, alloc, path) {
        Ok((_source, paths)) => are(shown(alloc, &paths), wanted.as_bytes()),
        Err(fault) => is_shown(alloc, &fault, wanted),
    }
}

// A place, the names in `top`, whether their listing breaks off, and what a scan of the place finds.
type Row = (&'static str, &'static [u8], bool, &'static str);

// This system would tell of a FIFO at the empty place, were it asked.
const SCANS: &[Row] = &[
    ("top", b"\xff\0a file\0", false, "F1 NotUtf8"),
    ("top", b"\xff\0fifo\0", false, "F2 NotRegular"),
    ("top", b"fifo\0a locked\0", false, "F4 System"),
    (
        "top",
        b"b file\0..\0a file\0.\0a folder\0b file\0",
        false,
        "/a file /b file ",
    ),
    (
        "top",
        b".file\0...file\0\0..file\0",
        false,
        "/...file /..file /.file ",
    ),
    ("top", b"a file\0b file", false, "/a file /b file "),
    ("top", b"", false, ""),
    ("top", b"", true, "F4 System"),
    ("top", b"a file\0", true, "F4 System"),
    ("top", b"a file\0b fi", true, "F4 System"),
    ("", b"a file\0", false, "F4 System"),
];

// Whether that is so where `top` has these names.
fn gives(rt: &HostRuntime, row: &Row) -> bool {
    match system_of(rt, row.1, row.2) {
        Ok(system) => is_scan(&system, row.0, row.3),
        Err(_) => false,
    }
}

#[test]
fn answers_the_first_fault_in_the_order_of_names(rt: HostRuntime) {
    for row in SCANS {
        assert!(rt; gives(&rt, row));
    }
}
