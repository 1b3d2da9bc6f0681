// Pieces in a folder.
ghost use Rattle.std.specs.Prelude.{◌≡◌, ◌≤◌, IfOk, IfSome, None, length};

use crate::piece_files::{check_folder, has_file, part_path, piece_path, read_range, replace};
use sat_base::{Fetched, Items, SegId, Stored};
use std::alloc::Global;
use std::fs::{Files, OpenFile};
use std::io::ErrorKind;
use std::marker::Model;
use std::{fs, io};
use stor_base::Pieces;

/// Pieces as files of a folder, each by the name `S-J` of its segment S and its index J, in decimal. Contracts see the count of
/// failed calls, up to 2^64 - 1.
///
/// A put makes the file `put.part` anew, syncs it, renames it over the piece's, and syncs the folder. So a piece that is kept
/// stays so through a crash, and of one that was cut off the old bytes are there or the new ones. A leftover `put.part` is
/// removed by the next put. One program may write into a folder at a time, and no other name there is touched.
///
/// `Missing` says that the folder stands and no file of that name does. A symlink, a folder or a device of that name is a
/// failure. A file that is made may be read and written by its owner alone.
#[derive(Drop)]
pub struct FolderPieces<R: Files + Copy> {
    rt: R,
    folder: String,
    faults: u64,
}

impl<R: Files + Copy> Model for FolderPieces<R> {
    ghost use Rattle.std.specs.Prelude.{ℕ};

    ghost Value = { ℕ };

    ghost view = { λ p. p.faults };
}

impl<R: Files + Copy + AllocGlobal> FolderPieces<R> {
    /// The pieces of this folder, which has to stand. An error is the system's, or says that memory ran out.
    pub fn open(rt: R, folder: &str) -> io::Result<FolderPieces<R>>
        ensures { IfOk result (λ pieces. pieces ≡ 0) }
    {
        check_folder(&rt, folder)?;
        Ok(FolderPieces {
            rt,
            folder: String::from_str(rt.alloc(), folder)?,
            faults: 0,
        })
    }
}

impl<R: Files + Copy> FolderPieces<R> {
    /// How many calls have failed, up to 2^64 - 1.
    pub fn faults(&self) -> u64
        ensures { result ≡ self.now }
    {
        self.faults
    }

    // The file of a piece, where there is one.
    fn piece_file(&self, path: &str) -> io::Result<Option<R::File>> {
        if has_file(&self.rt, path)? {
            return Ok(Some(fs::open(&self.rt, path)?));
        }
        check_folder(&self.rt, self.folder.as_str())?;
        Ok(None)
    }

    // The bytes of a piece from an offset on, at most so many, where it is held.
    fn range(
        &self,
        alloc: Global,
        segment: SegId,
        index: u8,
        offset: u64,
        len: u64,
    ) -> io::Result<Option<Vec<u8>>>
        ensures { IfOk result (λ found. IfSome found (λ bytes. length bytes.items ≤ len)) }
    {
        let path = piece_path(alloc, self.folder.as_str(), segment, index)?;
        match self.piece_file(path.as_str())? {
            Some(file) => Ok(Some(read_range(alloc, file, offset, len)?)),
            None => Ok(None),
        }
    }

    // Puts a piece in place of what is held of it. The folder is opened first, so that it can be synced then.
    fn put(&self, alloc: Global, segment: SegId, index: u8, bytes: &[u8]) -> io::Result<()> {
        let path = piece_path(alloc, self.folder.as_str(), segment, index)?;
        let part = part_path(alloc, self.folder.as_str())?;
        let folder = fs::open(&self.rt, self.folder.as_str())?;
        has_file(&self.rt, path.as_str())?;
        replace(&self.rt, part.as_str(), path.as_str(), bytes)?;
        folder.sync_all()
    }
}

impl<R: Files + Copy> Pieces for FolderPieces<R> {
    ghost held = { λ _. None };

    ghost faults = { λ p. p };

    fn read(&mut self, alloc: Global, segment: SegId, index: u8, offset: u64, len: u64) -> Fetched {
        match self.range(alloc, segment, index, offset, len) {
            Ok(Some(bytes)) => Fetched::Share(Items::of(bytes)),
            Ok(None) => Fetched::Missing,
            Err(e) if e.kind() == ErrorKind::OutOfMemory => Fetched::NoMemory,
            Err(_) => {
                self.faults = self.faults.saturating_add(1);
                Fetched::NoAnswer
            }
        }
    }

    fn write(&mut self, alloc: Global, segment: SegId, index: u8, bytes: &[u8]) -> Stored {
        match self.put(alloc, segment, index, bytes) {
            Ok(()) => Stored::Kept,
            Err(e) if e.kind() == ErrorKind::OutOfMemory => Stored::NoMemory,
            Err(_) => {
                self.faults = self.faults.saturating_add(1);
                Stored::NoAnswer
            }
        }
    }
}
