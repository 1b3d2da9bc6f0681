// The files of pieces.
ghost use Rattle.std.specs.Prelude.{◌≡◌, ◌<◌, ◌≤◌, ◌^◌, ℕ, IfOk, length, string_bytes};
ghost use Rattle.sat_base.specs.declared.ids.SegId.{SegId};
ghost use Rattle.stor_devices.specs.Files.{part_name, path_in, piece_name};

use sat_base::SegId;
use sat_devices::read_once;
use std::alloc::{AllocError, Global};
use std::fs::{Files, OpenFile, OpenOptions};
use std::io::{ErrorKind, Read, Seek, SeekFrom, Write};
use std::os::unix::fs::OpenOptionsExt;
use std::{fs, io};

// Who may read and write a piece: its owner.
const MODE: u32 = 0o600;

/// The path of a piece's file.
pub(crate) fn piece_path(
    alloc: Global,
    folder: &str,
    segment: SegId,
    index: u8,
) -> Result<String, AllocError>
    ensures { IfOk result (λ path. string_bytes path ≡ path_in folder.now (piece_name segment index)) }
{
    let segment = segment.0;
    format!(in alloc; "{folder}/{segment}-{index}")
}

/// The path of the file in which a piece stands until it is whole. It is no piece's.
pub(crate) fn part_path(alloc: Global, folder: &str) -> Result<String, AllocError>
    ensures { IfOk result (λ path. string_bytes path ≡ path_in folder.now part_name) }
{
    format!(in alloc; "{folder}/put.part")
}

/// The law of names: pieces that are told apart have names that are, and none has the name of what isn't whole yet.
pub fn names_are_one()
    ensures pieces { (s t : SegId) (i j : ℕ) → s.0 < 2 ^ 64 → t.0 < 2 ^ 64 → i < 2 ^ 8 → j < 2 ^ 8
        → piece_name s i ≡ piece_name t j → (s ≡ t) × (i ≡ j) }
    ensures part { (segment : SegId) (index : ℕ) → segment.0 < 2 ^ 64 → piece_name segment index ≡ part_name → ⊥ }
{}

/// Whether a file stands at a path, and not nothing. Anything else there is an error, as a symlink or a folder.
pub(crate) fn has_file<R: Files>(rt: &R, path: &str) -> io::Result<bool> {
    match fs::symlink_metadata(rt, path) {
        Ok(found) if found.is_file() => Ok(true),
        Ok(_) => Err(io::Error::from(ErrorKind::InvalidInput)),
        Err(e) if e.kind() == ErrorKind::NotFound => Ok(false),
        Err(e) => Err(e),
    }
}

/// Fails where no folder stands at a path.
pub(crate) fn check_folder<R: Files>(rt: &R, path: &str) -> io::Result<()> {
    if fs::metadata(rt, path)?.is_dir() {
        return Ok(());
    }
    Err(io::Error::from(ErrorKind::NotADirectory))
}

// Reads until a buffer is full or the file ends. It gives how much was read.
fn read_up<F: Read>(file: &mut F, buf: &mut [u8]) -> io::Result<usize> {
    let mut got = 0usize;
    for _ in 0..u64::MAX {
        let rest = buf.get_mut(got..).unwrap_or(&mut []);
        if rest.is_empty() {
            return Ok(got);
        }
        match read_once(file, rest)? {
            0 => return Ok(got),
            count => got = got.saturating_add(count),
        }
    }
    Ok(got)
}

/// The bytes of a file from an offset on, at most so many, and fewer where it ends before. No other bytes are read.
pub(crate) fn read_range<F: Read + Seek + OpenFile + Drop>(
    alloc: Global,
    file: F,
    offset: u64,
    len: u64,
) -> io::Result<Vec<u8>>
    ensures { IfOk result (λ bytes. length bytes.items ≤ len) }
{
    let mut file = file;
    let count = file.metadata()?.len().saturating_sub(offset).min(len);
    if count == 0 {
        return Ok(Vec::new(alloc));
    }
    file.seek(SeekFrom::Start(offset))?;
    let mut bytes = vec![in alloc; 0u8; count as usize]?;
    let got = read_up(&mut file, &mut bytes)?;
    bytes.truncate(got);
    Ok(bytes)
}

// Makes a file anew with these bytes, and syncs it. What stands there is removed first, so that no symlink is followed.
fn write_part<R: Files>(rt: &R, part: &str, bytes: &[u8]) -> io::Result<()> {
    if let Err(e) = fs::remove_file(rt, part)
        && e.kind() != ErrorKind::NotFound
    {
        return Err(e);
    }
    let mut options = OpenOptions::new();
    options.write(true).create_new(true).mode(MODE);
    let mut file = options.open(rt, part)?;
    file.write_all(bytes)?;
    file.sync_all()
}

fn write_and_rename<R: Files>(rt: &R, part: &str, path: &str, bytes: &[u8]) -> io::Result<()> {
    write_part(rt, part, bytes)?;
    fs::rename(rt, part, path)
}

/// Puts bytes in place of what stands at a path: they stand at another one, of the same folder, until they are synced. Where
/// that fails, what stands there is removed, if it can be.
pub(crate) fn replace<R: Files>(rt: &R, part: &str, path: &str, bytes: &[u8]) -> io::Result<()> {
    let done = write_and_rename(rt, part, path, bytes);
    if done.is_err() {
        let _ = fs::remove_file(rt, part);
    }
    done
}
