//! The system's disk: the trusted edge.
ghost use Rattle.std.specs.Prelude.{None, []};

use crate::DoneEnd;
use crate::disk::{Disk, OpenFault};
use std::alloc::Global;
use std::fs::{self, File, OpenFile, OpenOptions};
use std::io::{self, ErrorKind, Write};
use std::os::unix::fs::OpenOptionsExt;
use std::rt::Files;

/// The disk of the system. It tells nothing of its files. A relative path is taken from the folder that the program runs
/// in. A path that is no UTF-8 can't be handed to the system, so that all calls on it fail.
#[derive(Drop)]
pub struct SystemDisk<'a, R: Files> {
    rt: &'a R,
}

impl<'a, R: Files> SystemDisk<'a, R> {
    /// The disk of this system.
    pub fn new(rt: &'a R) -> SystemDisk<'a, R> {
        SystemDisk { rt }
    }
}

impl<'a, R: Files> Disk for SystemDisk<'a, R> {
    type Reader = R::File;

    type Draft = R::File;

    ghost files = { λ d. None };

    ghost place = { λ draft. [] };

    fn open(&self, path: &[u8]) -> Result<R::File, OpenFault> {
        let Ok(name) = str::from_utf8(path) else {
            return Err(OpenFault::Failed);
        };
        match regular(self.rt, name) {
            Ok(true) => File::open(self.rt, name).map_err(|error| fault_of(&error)),
            Ok(false) => Err(OpenFault::Failed),
            Err(error) => Err(fault_of(&error)),
        }
    }

    fn target(&self, alloc: Global, path: &[u8]) -> Option<Vec<u8>> {
        let name = str::from_utf8(path).ok()?;
        let found = fs::symlink_metadata(self.rt, name).ok()?;
        if found.is_file() {
            return path.to_vec(alloc).ok();
        }
        if !found.is_symlink() || !regular(self.rt, name).ok()? {
            return None;
        }
        let whole = self.rt.canonicalize(alloc, name).ok()?;
        whole.as_str().as_bytes().to_vec(alloc).ok()
    }

    fn make(&mut self, path: &[u8]) -> Option<R::File> {
        let name = str::from_utf8(path).ok()?;
        OpenOptions::new()
            .write(true)
            .create_new(true)
            .mode(0o600)
            .open(self.rt, name)
            .ok()
    }

    fn take_mode(&mut self, draft: &mut R::File, of: &[u8]) -> DoneEnd {
        let Ok(name) = str::from_utf8(of) else {
            return DoneEnd::Failed;
        };
        match fs::metadata(self.rt, name) {
            Ok(found) => ended(draft.set_permissions(found.permissions())),
            Err(_) => DoneEnd::Failed,
        }
    }

    fn write(&mut self, draft: &mut R::File, bytes: &[u8]) -> DoneEnd {
        ended(draft.write_all(bytes))
    }

    fn sync(&mut self, draft: &mut R::File) -> DoneEnd {
        ended(draft.sync_all())
    }

    fn rename(&mut self, from: &[u8], to: &[u8]) -> DoneEnd {
        match (str::from_utf8(from), str::from_utf8(to)) {
            (Ok(from), Ok(to)) => ended(fs::rename(self.rt, from, to)),
            _ => DoneEnd::Failed,
        }
    }

    fn remove(&mut self, path: &[u8]) {
        if let Ok(name) = str::from_utf8(path) {
            let _ = fs::remove_file(self.rt, name);
        }
    }
}

// Whether a regular file stands at a path, or where the link there leads. To open anything else could wait.
fn regular<R: Files>(rt: &R, name: &str) -> io::Result<bool> {
    Ok(fs::metadata(rt, name)?.is_file())
}

fn fault_of(error: &io::Error) -> OpenFault {
    match error.kind() {
        ErrorKind::NotFound => OpenFault::Absent,
        _ => OpenFault::Failed,
    }
}

fn ended(done: io::Result<()>) -> DoneEnd {
    match done {
        Ok(()) => DoneEnd::Done,
        Err(_) => DoneEnd::Failed,
    }
}
