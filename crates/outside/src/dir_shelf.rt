// The files of the current folder as a shelf. It tells nothing of their texts.
ghost use Rattle.std.specs.Prelude.{◌≡◌, ◌≤◌, ◌↔◌, IsOk};
ghost use Rattle.outside.specs.Faults.{FailCounts, count_after};
ghost use Rattle.outside.specs.FileName.{IsFileName, is_path};
ghost use Rattle.outside.specs.declared.dir_shelf.TheConstants.{MAX_LEN};

use crate::{OutFail, Shelf};
use std::fs::{self, Metadata, OpenFile, OpenOptions, Permissions};
use std::io::{self, ErrorKind, Read, Write};
use std::marker::Model;
use std::rt::Files;

/// The most bytes that a file may have, 512 MiB.
pub const MAX_LEN: u64 = 536_870_912;

/// The files of the current folder, by their names. These are faults: a name that is empty, `.` or `..`, that has
/// a `/` or is no text in UTF-8; what is no file, as a folder or a pipe, which is not opened; a file of more than
/// `MAX_LEN` bytes, or a text to be stored as one; and each error of the system but want of memory.
///
/// A text that is stored is written to a file beside, whose name is that of the text behind a `"`, and synced; then it
/// takes the place of the old file by one rename, with the same permissions, and the folder is synced. So a store that
/// fails, or is cut off, before the rename leaves the old file as it was, and after it the new one stands, whole. What a
/// run that was killed left beside is replaced by the next store. A symbolic link is replaced and not followed.
#[derive(Drop)]
pub struct DirShelf<R> {
    rt: R,
    faults: u64,
}

impl<R> Model for DirShelf<R> {
    ghost use Rattle.std.specs.Prelude.{ℕ};

    ghost Value = { ℕ };

    ghost view = { λ s. s.faults };
}

impl<R: Files + AllocGlobal> DirShelf<R> {
    /// A shelf over the current folder, with no fault yet.
    pub fn new(rt: R) -> DirShelf<R>
        ensures { result ≡ 0 }
    {
        DirShelf { rt, faults: 0 }
    }

    // Counts a fault, unless there was no memory.
    fn failure(&mut self, error: &io::Error) -> OutFail
        ensures count { self.new ≡ count_after result self.old }
        ensures counts { FailCounts self.old self.new result }
    {
        if error.kind() == ErrorKind::OutOfMemory {
            return OutFail::NoMemory;
        }
        self.fault()
    }

    // Counts a fault.
    fn fault(&mut self) -> OutFail
        ensures result { result ≡ OutFail.Failed }
        ensures count { self.new ≡ count_after OutFail.Failed self.old }
    {
        self.faults = self.faults.saturating_add(1);
        OutFail::Failed
    }
}

impl<R: Files + AllocGlobal> Shelf for DirShelf<R> {
    ghost faults = { λ s. s };

    fn fetch(&mut self, name: &[u8]) -> Result<Option<Vec<u8>>, OutFail> {
        match read_file(&self.rt, name) {
            Ok(text) => Ok(Some(text)),
            Err(error) if error.kind() == ErrorKind::NotFound => Ok(None),
            Err(error) => Err(self.failure(&error)),
        }
    }

    fn store(&mut self, name: &[u8], text: &[u8]) -> Result<(), OutFail> {
        if let Err(error) = replace_file(&self.rt, name, text) {
            return Err(self.failure(&error));
        }
        match sync_folder(&self.rt) {
            Ok(()) => Ok(()),
            // The new text stands, and want of memory would say that the old one does.
            Err(_) => Err(self.fault()),
        }
    }
}

// The name as that of a file in the current folder itself.
fn file_name(name: &[u8]) -> io::Result<&str>
    ensures { IsOk result ↔ IsFileName name.now }
{
    if is_path(name) {
        return Err(io::Error::from(ErrorKind::InvalidInput));
    }
    str::from_utf8(name).map_err(|_| io::Error::from(ErrorKind::InvalidInput))
}

// Whether the name is empty, or stands for another place than a file of the current folder.
fn is_path(name: &[u8]) -> bool
    ensures { result ≡ is_path name.now }
{
    matches!(name, b"" | b"." | b"..") || name.contains(&b'/')
}

fn read_file<R: Files + AllocGlobal>(rt: &R, name: &[u8]) -> io::Result<Vec<u8>> {
    let name = file_name(name)?;
    check_is_file(&fs::metadata(rt, name)?)?;
    let file = fs::open(rt, name)?;
    check_len(file.metadata()?.len())?;
    let mut bytes = Vec::new(rt.alloc());
    // The length of a file that grows is known only once it is read.
    file.take(MAX_LEN + 1).read_to_end(&mut bytes)?;
    check_len(bytes.len() as u64)?;
    Ok(bytes)
}

// Writes the text to a file beside, which then takes the place of the file of this name. Where it fails the old file is
// as it was, and no new one is left.
fn replace_file<R: Files + AllocGlobal>(rt: &R, name: &[u8], text: &[u8]) -> io::Result<()> {
    let name = file_name(name)?;
    check_len(text.len() as u64)?;
    let old = permissions(rt, name)?;
    let beside = format!(in rt.alloc(); "\"{name}")?;
    remove_if_there(rt, &beside)?;
    let replaced = write_beside(rt, &beside, text, old).and_then(|()| fs::rename(
        rt, &beside, name,
    ));
    if replaced.is_err() {
        // The error that is told is the one that came first.
        let _ = fs::remove_file(rt, &beside);
    }
    replaced
}

// The permissions of the file of this name, or `None` where there is none. One that may not be written is not replaced.
fn permissions<R: Files>(rt: &R, name: &str) -> io::Result<Option<Permissions>> {
    let found = match fs::metadata(rt, name) {
        Ok(found) => found,
        Err(error) if error.kind() == ErrorKind::NotFound => return Ok(None),
        Err(error) => return Err(error),
    };
    check_is_file(&found)?;
    OpenOptions::new().write(true).open(rt, name)?;
    Ok(Some(found.permissions()))
}

fn remove_if_there<R: Files>(rt: &R, name: &str) -> io::Result<()> {
    match fs::remove_file(rt, name) {
        Err(error) if error.kind() != ErrorKind::NotFound => Err(error),
        _ => Ok(()),
    }
}

// Writes the text to a new file, with these permissions, and syncs it.
fn write_beside<R: Files>(
    rt: &R,
    name: &str,
    text: &[u8],
    old: Option<Permissions>,
) -> io::Result<()> {
    let mut file = OpenOptions::new()
        .write(true)
        .create_new(true)
        .open(rt, name)?;
    file.write_all(text)?;
    if let Some(old) = old {
        file.set_permissions(old)?;
    }
    file.sync_all()
}

// What the folder says of its files is on the disk once this is done.
fn sync_folder<R: Files>(rt: &R) -> io::Result<()> {
    fs::open(rt, ".")?.sync_all()
}

fn check_is_file(found: &Metadata) -> io::Result<()> {
    if found.is_file() {
        return Ok(());
    }
    Err(io::Error::from(ErrorKind::InvalidInput))
}

fn check_len(len: u64) -> io::Result<()>
    ensures { IsOk result ↔ (len ≤ MAX_LEN) }
{
    if len > MAX_LEN {
        return Err(io::Error::from(ErrorKind::FileTooLarge));
    }
    Ok(())
}
