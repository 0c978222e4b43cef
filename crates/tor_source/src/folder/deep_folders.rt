//! The folders on the way to what lies deeper than any file that could be taken. One is held open, the one that was
//! entered last. The walk goes up from it by `..`, which has to lead to the folder that was entered before: so each
//! step takes the same time, however deep it is, and no folder that is moved meanwhile leads out of what is walked.
use crate::folder::listed_file::FileNumber;
use crate::folder::open_folders::{OpenFolder, hold, open_folder};
use std::alloc::{AllocError, Global};
use std::fs::OpenFile;
use std::io::{self, ErrorKind};
use std::os::fd::AsRawFd;
use std::rt::Files;

/// Folders, each in the one before, of which the last is held open; or none.
#[derive(Drop)]
pub(crate) struct DeepFolders<F: Drop> {
    numbers: Vec<FileNumber>,
    last: Option<OpenFolder<F>>,
}

impl<F: Drop> DeepFolders<F> {
    /// No folder.
    pub(crate) fn none(alloc: Global) -> DeepFolders<F> {
        DeepFolders {
            numbers: Vec::new(alloc),
            last: None,
        }
    }

    /// How many there are.
    pub(crate) fn count(&self) -> usize {
        self.numbers.len()
    }

    /// The last one.
    pub(crate) fn last(&self) -> Option<&OpenFolder<F>> {
        self.last.as_ref()
    }

    /// Adds a folder in the last one.
    pub(crate) fn push(
        &mut self,
        number: FileNumber,
        folder: OpenFolder<F>,
    ) -> Result<(), AllocError> {
        self.numbers.push(number)?;
        self.last = Some(folder);
        Ok(())
    }
}

impl<F: AsRawFd + OpenFile + Drop> DeepFolders<F> {
    /// Goes up until no more than so many are left; or lets go of all, if none is to be left or one is not where it was.
    pub(crate) fn rise<R: Files<File = F>>(
        &mut self,
        rt: &R,
        alloc: Global,
        descriptors: &str,
        depth: usize,
    ) {
        if depth == 0 {
            self.let_go();
            return;
        }
        for _ in depth..self.numbers.len() {
            if self.rise_once(rt, alloc, descriptors).is_err() {
                self.let_go();
                return;
            }
        }
    }

    // Keeps none.
    fn let_go(&mut self) {
        self.numbers.clear();
        self.last = None;
    }

    // Goes up from the last folder to the one before, which has to be the one that was entered.
    fn rise_once<R: Files<File = F>>(
        &mut self,
        rt: &R,
        alloc: Global,
        descriptors: &str,
    ) -> io::Result<()> {
        let left = self.last.take();
        self.numbers.pop();
        let (Some(number), Some(left)) = (self.numbers.last(), left) else {
            return Ok(());
        };
        let above = format!(in alloc; "{}/..", left.place)?;
        let file = open_folder(rt, alloc, &above)?;
        if !number.is(FileNumber::of(&file.metadata()?)) {
            return Err(io::Error::from(ErrorKind::Other));
        }
        self.last = Some(hold(alloc, descriptors, file)?);
        Ok(())
    }
}
