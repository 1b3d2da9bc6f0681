// Pieces as files of a folder.
use anyhow::{Result, bail};
use sat_base::{Fetched, SegId};
use std::os::unix::fs::{MetadataExt, symlink};
use std::{env, fs, process};
use stor_base::Pieces;
use stor_devices::FolderPieces;

const SEGMENT: SegId = SegId(7);

// The bytes of the longest piece.
const LONGEST: u64 = 4_194_304;

// A folder that no other run has, and its pieces.
#[derive(Drop)]
struct Tried {
    rt: HostRuntime,
    folder: String,
    pieces: FolderPieces<HostRuntime>,
}

impl Tried {
    // An empty folder.
    fn new(rt: &HostRuntime) -> Result<Tried> {
        let temp = env::temp_dir(rt)?;
        let number = process::id(rt.process());
        let folder = format!(in rt.alloc(); "{}/trial-devices-{number}", temp.as_str())?;
        fs::create_dir(rt, folder.as_str())?;
        let pieces = FolderPieces::open(*rt, folder.as_str())?;
        Ok(Tried {
            rt: *rt,
            folder,
            pieces,
        })
    }

    // The path of a name in the folder.
    fn path(&self, name: &str) -> Result<String> {
        let folder = self.folder.as_str();
        Ok(format!(in self.rt.alloc(); "{folder}/{name}")?)
    }

    // Makes a file.
    fn make(&self, name: &str, text: &str) -> Result<()> {
        let path = self.path(name)?;
        Ok(fs::write(&self.rt, path.as_str(), text)?)
    }

    // Makes a symlink to a name.
    fn link(&self, name: &str, to: &str) -> Result<()> {
        let path = self.path(name)?;
        Ok(symlink(&self.rt, to, path.as_str())?)
    }

    // Prints what a file holds, or that it isn't there.
    fn show_file(&self, name: &str) -> Result<()> {
        let path = self.path(name)?;
        match fs::read_to_string(&self.rt, path.as_str()) {
            Ok(text) => print!(self.rt; " {name} '{text}'")?,
            Err(e) => print!(self.rt; " {name} {:?}", e.kind())?,
        }
        Ok(())
    }

    // Puts a piece, and prints the answer.
    fn put(&mut self, index: u8, text: &str) -> Result<()> {
        let stored = self
            .pieces
            .write(self.rt.alloc(), SEGMENT, index, text.as_bytes());
        Ok(print!(self.rt; " {stored:?}")?)
    }

    // Prints what is read of a piece.
    fn read(&mut self, index: u8, offset: u64, len: u64) -> Result<()> {
        match self
            .pieces
            .read(self.rt.alloc(), SEGMENT, index, offset, len)
        {
            Fetched::Share(bytes) => {
                let text = str::from_utf8(bytes.as_slice()).unwrap_or("other bytes");
                print!(self.rt; " '{text}'")?;
            }
            other => print!(self.rt; " {other:?}")?,
        }
        Ok(())
    }

    // Prints the count of failed calls, and ends the line.
    fn count(&self) -> Result<()> {
        Ok(println!(self.rt; " {}", self.pieces.faults())?)
    }

    // Removes the folder.
    fn remove(&self) -> Result<()> {
        Ok(fs::remove_dir_all(&self.rt, self.folder.as_str())?)
    }
}

/// Ranges of a piece, within it and past its end, and of one that isn't held.
pub fn ranges(rt: &HostRuntime) -> Result<()> {
    let mut tried = Tried::new(rt)?;
    print!(rt; "folder:")?;
    tried.put(3, "0123456789")?;
    tried.read(3, 0, LONGEST)?;
    tried.read(3, 2, 5)?;
    tried.read(3, 8, 5)?;
    tried.read(3, 10, 5)?;
    tried.read(3, u64::MAX, u64::MAX)?;
    tried.read(4, 0, 5)?;
    tried.count()?;
    tried.remove()
}

/// A piece that is put again, and again without bytes. Its owner alone may read it.
pub fn again(rt: &HostRuntime) -> Result<()> {
    let mut tried = Tried::new(rt)?;
    print!(rt; "put again:")?;
    tried.put(3, "a long one")?;
    tried.put(3, "new")?;
    tried.read(3, 0, LONGEST)?;
    let mode = fs::metadata(rt, tried.path("7-3")?.as_str())?.mode() & 0o777;
    print!(rt; " mode {mode:o}")?;
    tried.put(3, "")?;
    tried.read(3, 0, LONGEST)?;
    tried.count()?;
    tried.remove()
}

/// A piece of 4 MiB, and a range at its end.
pub fn long(rt: &HostRuntime) -> Result<()> {
    let mut tried = Tried::new(rt)?;
    let mut bytes = vec![in rt.alloc(); b'a'; LONGEST as usize - 3]?;
    bytes.extend_from_slice(b"end")?;
    let stored = tried
        .pieces
        .write(rt.alloc(), SEGMENT, 255, bytes.as_slice());
    let is_same = match tried.pieces.read(rt.alloc(), SEGMENT, 255, 0, u64::MAX) {
        Fetched::Share(found) => found.as_slice() == bytes.as_slice(),
        _ => false,
    };
    print!(rt; "long piece: {stored:?} {is_same}")?;
    tried.read(255, LONGEST - 4, LONGEST)?;
    tried.count()?;
    tried.remove()
}

/// A part that a crash left, and files of other names, one of them another piece.
pub fn leftover(rt: &HostRuntime) -> Result<()> {
    let mut tried = Tried::new(rt)?;
    tried.make("put.part", "a part that is longer than the piece")?;
    tried.make("notes", "other")?;
    tried.make("7-10", "ten")?;
    print!(rt; "leftover part:")?;
    tried.put(1, "piece")?;
    tried.read(1, 0, LONGEST)?;
    tried.show_file("put.part")?;
    tried.show_file("notes")?;
    tried.read(10, 0, LONGEST)?;
    tried.count()?;
    tried.remove()
}

/// A symlink and a folder of a piece's name.
pub fn no_files(rt: &HostRuntime) -> Result<()> {
    let mut tried = Tried::new(rt)?;
    tried.make("notes", "other")?;
    tried.link("7-1", "notes")?;
    fs::create_dir(rt, tried.path("7-2")?.as_str())?;
    print!(rt; "no files:")?;
    tried.read(1, 0, 5)?;
    tried.put(1, "piece")?;
    tried.read(2, 0, 5)?;
    tried.put(2, "piece")?;
    tried.show_file("notes")?;
    tried.show_file("put.part")?;
    tried.count()?;
    tried.remove()
}

/// A part that is a symlink isn't followed.
pub fn linked_part(rt: &HostRuntime) -> Result<()> {
    let mut tried = Tried::new(rt)?;
    tried.make("notes", "other")?;
    tried.link("put.part", "notes")?;
    print!(rt; "linked part:")?;
    tried.put(3, "piece")?;
    tried.read(3, 0, 5)?;
    tried.show_file("notes")?;
    tried.count()?;
    tried.remove()
}

/// A folder that is gone, which can't be opened any more.
pub fn gone(rt: &HostRuntime) -> Result<()> {
    let mut tried = Tried::new(rt)?;
    tried.remove()?;
    print!(rt; "gone:")?;
    tried.put(1, "piece")?;
    print!(rt; " {}", tried.pieces.faults())?;
    tried.read(1, 0, 5)?;
    print!(rt; " {}", tried.pieces.faults())?;
    match FolderPieces::open(*rt, tried.folder.as_str()) {
        Ok(_) => bail!("a folder that is gone was opened"),
        Err(e) => println!(rt; ", {:?}", e.kind())?,
    }
    Ok(())
}
