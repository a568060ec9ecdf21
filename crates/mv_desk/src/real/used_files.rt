// Which regular files a desk has opened or created, so that none is lost under a second name.
use std::fs::{File, Files, Metadata, OpenFile};
use std::io;
use std::io::ErrorKind;
use std::os::unix::fs::MetadataExt;

/// How many files are told apart: more than any command names.
const ROOM: usize = 8;

/// A regular file, whatever name or link leads to it.
#[derive(Clone, Copy, PartialEq, Eq)]
struct FileId {
    device: u64,
    number: u64,
}

/// The regular files that were opened or created. Devices and pipes are none of them: these may be written twice.
#[derive(Clone, Copy)]
pub struct UsedFiles {
    ids: [Option<FileId>; ROOM],
}

impl UsedFiles {
    pub fn new() -> UsedFiles {
        UsedFiles { ids: [None; ROOM] }
    }

    pub fn open<R: Files>(&mut self, rt: &R, name: &str) -> io::Result<R::File> {
        let file = File::open(rt, name)?;
        if let Some(id) = regular(&file.metadata()?) {
            self.add(id);
        }
        Ok(file)
    }

    /// Refuses a file that is one of them already. What was in the file goes only once that is known.
    pub fn create<R: Files>(&mut self, rt: &R, name: &str) -> io::Result<R::File> {
        let file = File::options().write(true).create(true).open(rt, name)?;
        if let Some(id) = regular(&file.metadata()?) {
            if self.may_have(id) {
                return Err(io::Error::from(ErrorKind::AlreadyExists));
            }
            self.add(id);
            file.set_len(0)?;
        }
        Ok(file)
    }

    // Where no room is left, any file may be one of them.
    fn may_have(&self, id: FileId) -> bool {
        self.ids.contains(&Some(id)) || !self.ids.contains(&None)
    }

    fn add(&mut self, id: FileId) {
        if let Some(free) = self.ids.iter().position(|id| id.is_none()) {
            self.ids[free] = Some(id);
        }
    }
}

fn regular(metadata: &Metadata) -> Option<FileId> {
    metadata.is_file().then(|| FileId {
        device: metadata.dev(),
        number: metadata.ino(),
    })
}
