//! The folders on the way to what is listed, held open. Each is entered by the descriptor of the one before, and what
//! is in it is looked up by its own. So no link that replaces a folder meanwhile leads out of it, and nothing is listed
//! of another folder that replaces the top one.
ghost use Rattle.std.specs.Prelude.{◌≤◌, vec_len};

use crate::faults::{ScanFault, is_absence};
use crate::folder::deep_folders::DeepFolders;
use crate::folder::listed_file::FileNumber;
use crate::folder::place::Place;
use crate::folder::places::without_slash;
use std::alloc::{AllocError, Global};
use std::fs::{self, Metadata, OpenFile};
use std::io::{self, ErrorKind};
use std::os::fd::AsRawFd;
use std::rt::Files;
use tor_tree::{MAX_NAMES, Name};

/// How many folders below the top one are all held open. What is in a deeper one is no file that could be taken.
const MAX_OPEN: usize = MAX_NAMES - 1;

/// A folder, and the place from which what is in it is asked for.
#[derive(Drop)]
pub(crate) struct OpenFolder<F: Drop> {
    /// What holds the folder open; None if its place is its own.
    file: Option<F>,
    pub(crate) place: String,
}

/// The folders that are held open; none where the system has no places for what is held open.
#[derive(Drop)]
pub(crate) struct OpenFolders<R: Files> {
    /// Where the system has what this program holds open, by its number.
    descriptors: Option<String>,
    /// The place of the top folder itself, as it was given.
    root: String,
    top: OpenFolder<R::File>,
    /// Each in the one before, the first in the top one.
    below: Vec<OpenFolder<R::File>>,
    /// Those in the last of them.
    deep: DeepFolders<R::File>,
}

impl<R: Files> OpenFolders<R>
where
    R::File: AsRawFd,
{
    /// The top folder at a place, where a link is followed.
    pub(crate) fn at_top(rt: &R, alloc: Global, root: &str) -> Result<OpenFolders<R>, ScanFault> {
        judge_folder(rt, root)?;
        let mut folders = OpenFolders::unheld(alloc, root)?;
        folders.hold_top(rt, alloc)?;
        Ok(folders)
    }

    // Holds the top folder open, if the system has a place for what is.
    fn hold_top(&mut self, rt: &R, alloc: Global) -> Result<(), ScanFault> {
        let Some(descriptors) = descriptors(rt, alloc)? else {
            return Ok(());
        };
        let file = open_folder(rt, alloc, &self.top.place)?;
        let top = hold(alloc, &descriptors, file)?;
        if is_there(rt, &top)? {
            self.descriptors = Some(descriptors);
            self.top = top;
        }
        Ok(())
    }

    /// The names in the top folder, as the system lists them.
    pub(crate) fn top_names(&self, rt: &R, alloc: Global) -> io::Result<R::Dir> {
        names_in(rt, alloc, &self.top.place)
    }

    /// Judges that the folder at the place of the top one is still that which is held open.
    pub(crate) fn judge_top(&self, rt: &R) -> Result<(), ScanFault> {
        let Some(file) = &self.top.file else {
            return Ok(());
        };
        if FileNumber::of(&file.metadata()?).is(FileNumber::of(&rt.metadata(&self.root)?)) {
            Ok(())
        } else {
            Err(ScanFault::System)
        }
    }

    // The top folder, whose place is its own.
    fn unheld(alloc: Global, root: &str) -> Result<OpenFolders<R>, AllocError> {
        let place = String::from_str(alloc, without_slash(root))?;
        Ok(OpenFolders {
            descriptors: None,
            root: String::from_str(alloc, root)?,
            top: OpenFolder { file: None, place },
            below: Vec::new(alloc),
            deep: DeepFolders::none(alloc),
        })
    }

    /// Lets go of the folders that more than so many names lead to.
    pub(crate) fn leave(&mut self, rt: &R, alloc: Global, depth: usize)
        ensures { vec_len self.new.below ≤ depth }
    {
        if let Some(descriptors) = &self.descriptors {
            let deep = depth.saturating_sub(MAX_OPEN);
            self.deep.rise(rt, alloc, descriptors, deep);
        }
        self.below.truncate(depth);
    }

    // The last folder that is held open, or the top one.
    fn last(&self) -> &OpenFolder<R::File> {
        match self.deep.last() {
            Some(folder) => folder,
            None => self.below.last().unwrap_or(&self.top),
        }
    }

    // How many names lead to it.
    fn depth(&self) -> usize {
        self.below.len().saturating_add(self.deep.count())
    }

    /// What the system tells of what these names lead to: of a link there, of the link itself.
    pub(crate) fn metadata_of(&self, rt: &R, names: &[Name]) -> io::Result<Metadata> {
        let mut place = Place::new();
        self.write_place(names, &mut place)?;
        rt.symlink_metadata(place.as_str())
    }

    // Writes the place that what these names lead to has in the last folder that is held open.
    fn write_place(&self, names: &[Name], place: &mut Place) -> io::Result<()> {
        let (_, names) = names.split_at(self.depth().min(names.len()));
        place.write(&self.last().place, names)
    }

    /// Goes into the folder to which these names lead, which has to be the one of which this was told; and its names as
    /// the system lists them.
    pub(crate) fn enter(
        &mut self,
        rt: &R,
        alloc: Global,
        names: &[Name],
        told: &Metadata,
    ) -> io::Result<R::Dir> {
        let mut place = Place::new();
        self.write_place(names, &mut place)?;
        if self.go_to(rt, alloc, names.len(), place.as_str(), told)? {
            names_in(rt, alloc, &self.last().place)
        } else {
            rt.open_dir(place.as_str())
        }
    }

    /// Holds the folder open to which these names lead, which has to be the one of which this was told.
    pub(crate) fn go_into(
        &mut self,
        rt: &R,
        alloc: Global,
        names: &[Name],
        told: &Metadata,
    ) -> io::Result<()> {
        let mut place = Place::new();
        self.write_place(names, &mut place)?;
        self.go_to(rt, alloc, names.len(), place.as_str(), told)?;
        Ok(())
    }

    // Holds the folder at a place open, to which so many names lead, if it is in the last one that is; and whether it
    // does.
    fn go_to(
        &mut self,
        rt: &R,
        alloc: Global,
        depth: usize,
        place: &str,
        told: &Metadata,
    ) -> io::Result<bool> {
        let descriptors = match &self.descriptors {
            Some(descriptors) if depth == self.depth().saturating_add(1) => descriptors,
            _ => return Ok(false),
        };
        let file = open_folder(rt, alloc, place)?;
        let number = FileNumber::of(told);
        if !number.is(FileNumber::of(&file.metadata()?)) {
            return Err(io::Error::from(ErrorKind::Other));
        }
        let folder = hold(alloc, descriptors, file)?;
        if self.below.len() < MAX_OPEN {
            self.below.push(folder)?;
        } else {
            self.deep.push(number, folder)?;
        }
        Ok(true)
    }
}

// Whether a place may be scanned: a folder is there.
fn judge_folder<R: Files>(rt: &R, place: &str) -> Result<(), ScanFault> {
    let metadata = rt.metadata(place)?;
    if metadata.is_file() {
        return Err(ScanFault::System);
    }
    if !metadata.is_dir() {
        return Err(ScanFault::NotRegular);
    }
    Ok(())
}

/// The folder at a place, opened. Behind a slash nothing else is: to open a FIFO would wait.
pub(crate) fn open_folder<R: Files>(rt: &R, alloc: Global, place: &str) -> io::Result<R::File> {
    let behind = format!(in alloc; "{place}/")?;
    fs::open(rt, &behind)
}

// The place of what this program holds open; None if the system has no such place.
fn descriptors<R: Files>(rt: &R, alloc: Global) -> Result<Option<String>, ScanFault> {
    match rt.read_link(alloc, "/proc/self") {
        Ok(process) => Ok(Some(format!(in alloc; "/proc/{}/fd", process.display())?)),
        Err(fault) if matches!(fault.kind(), ErrorKind::OutOfMemory) => Err(ScanFault::Memory),
        Err(_) => Ok(None),
    }
}

/// A folder that was opened, whose place is that of what holds it open.
pub(crate) fn hold<F: AsRawFd + Drop>(
    alloc: Global,
    descriptors: &str,
    file: F,
) -> Result<OpenFolder<F>, AllocError> {
    let number = file.as_raw_fd();
    let place = format!(in alloc; "{descriptors}/{number}")?;
    Ok(OpenFolder {
        file: Some(file),
        place,
    })
}

// Whether the system has a folder that is held open at its place.
fn is_there<R: Files>(rt: &R, folder: &OpenFolder<R::File>) -> io::Result<bool> {
    let Some(file) = &folder.file else {
        return Ok(false);
    };
    let opened = FileNumber::of(&file.metadata()?);
    match rt.metadata(&folder.place) {
        Ok(there) => Ok(opened.is(FileNumber::of(&there))),
        Err(fault) if is_absence(fault.kind()) => Ok(false),
        Err(fault) if matches!(fault.kind(), ErrorKind::PermissionDenied) => Ok(false),
        Err(fault) => Err(fault),
    }
}

// The names in a folder as the system lists them.
fn names_in<R: Files>(rt: &R, alloc: Global, place: &str) -> io::Result<R::Dir> {
    // A symbolic link, as one from a descriptor to its folder, is followed only at a place that ends in a slash.
    let behind = format!(in alloc; "{place}/")?;
    rt.open_dir(&behind)
}
