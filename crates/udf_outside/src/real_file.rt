//! One file of a bench over real files: what was asked of it, how the system is asked for it, the length that was found
//! and moved, and the loop over the system's short writes.
ghost use Rattle.std.specs.Prelude.{◌≡◌, ◌+◌, ◌≤◌, ◌<◌, ◌^◌, length, false, is_ok};
ghost use Rattle.udf_outside.specs.OverFiles.{real_file, Grows};

use crate::{Access, Failed};
use std::fs::{Files, Metadata, OpenOptions};
use std::io::{ErrorKind, Seek, SeekFrom};
use std::marker::Model;
use std::os::unix::fs::{FileExt, FileTypeExt};
use std::path::Path;
use std::{fs, io};

/// One file of a bench. Its lock lasts as long as it does.
#[derive(Drop)]
pub struct RealFile {
    file: Option<fs::File>,
    length: u64,
    asked: Option<Access>,
}

impl Model for RealFile {
    ghost use Rattle.std.specs.Prelude.{is_some};
    ghost use Rattle.udf_outside.specs.Files.{File};
    ghost use Rattle.udf_outside.specs.OverFiles.{real_file};

    ghost Value = { File };

    ghost view = { λ slot. real_file slot.asked (is_some slot.file) slot.length };
}

/// Refuses what has no blocks and no length: a folder, a pipe, a socket, a terminal.
fn refuse_without_blocks(found: &Metadata) -> io::Result<()> {
    let kind = found.file_type();
    if kind.is_file() || kind.is_block_device() {
        Ok(())
    } else {
        Err(io::Error::from(ErrorKind::InvalidInput))
    }
}

/// Looks at what stands under a name before it is opened, since to open a pipe may wait for ever. Only `Create` allows
/// that nothing is there.
fn look<R: Files>(runtime: &R, name: &str, access: Access) -> io::Result<()> {
    match fs::metadata(runtime, name) {
        Ok(found) => refuse_without_blocks(&found),
        Err(e) if e.kind() == ErrorKind::NotFound && access == Access::Create => Ok(()),
        Err(e) => Err(e),
    }
}

/// Takes the system's lock on a whole file, without waiting: shared for reading, else for this run alone.
fn lock(file: &fs::File, access: Access) -> io::Result<()> {
    match access {
        Access::Read => file.try_lock_shared()?,
        Access::Write | Access::Create => file.try_lock()?,
    }
    Ok(())
}

/// Brings the folder in which a path ends to the medium, and with it the name.
fn sync_parent<R: Files<File = fs::File>>(runtime: &R, path: Path<'_>) -> io::Result<()> {
    let folder = match path.parent() {
        Some(parent) if !parent.as_str().is_empty() => parent,
        _ => Path::new("."),
    };
    OpenOptions::new()
        .read(true)
        .open(runtime, folder)?
        .sync_all()
}

/// Brings the name of a file to the medium; where it is a link, that of the file to which it leads.
fn sync_name<R: Files<File = fs::File> + Alloc>(runtime: &R, name: &str) -> io::Result<()> {
    if fs::symlink_metadata(runtime, name)?.is_symlink() {
        let target = fs::canonicalize(runtime, name)?;
        sync_parent(runtime, target.as_path())
    } else {
        sync_parent(runtime, Path::new(name))
    }
}

/// Opens a file, locks it, and finds its length in bytes. With `Create` its name is on the medium then.
fn open<R: Files<File = fs::File> + Alloc>(
    runtime: &R,
    name: &str,
    access: Access,
) -> io::Result<(fs::File, u64)> {
    look(runtime, name, access)?;
    let mut how = OpenOptions::new();
    how.read(true);
    how.write(access != Access::Read);
    how.create(access == Access::Create);
    let mut file = how.open(runtime, name)?;
    refuse_without_blocks(&file.metadata()?)?;
    lock(&file, access)?;
    if access == Access::Create {
        sync_name(runtime, name)?;
    }
    let length = file.seek(SeekFrom::End(0))?;
    Ok((file, length))
}

/// Writes as many of the bytes from an offset on as the system takes, and tells how many.
fn write_some(file: &fs::File, at: u64, from: &[u8]) -> usize
    requires { at + length from.now < 2 ^ 64 }
    ensures { result ≤ length from.now }
{
    let mut done = 0;
    for _ in 0..u64::MAX {
        if done == from.len() {
            break;
        }
        match file.write_at(&from[done..], at + done as u64) {
            Ok(0) => break,
            Ok(taken) => done += taken,
            Err(e) if e.kind() == ErrorKind::Interrupted => {}
            Err(_) => break,
        }
    }
    done
}

impl RealFile {
    /// A file that was not asked for.
    pub fn unasked() -> RealFile
        ensures { result ≡ real_file None false 0 }
    {
        RealFile {
            file: None,
            length: 0,
            asked: None,
        }
    }

    /// Asks the system for a file, and locks it: for reading beside other readers, else alone. What is neither a file nor a
    /// block device is not attached, nor is a file that somebody else has locked, this bench's other file among them.
    pub fn attached<R: Files<File = fs::File> + Alloc>(
        runtime: &R,
        name: &str,
        access: Access,
    ) -> RealFile
        ensures { result ≡ real_file (Some access) result.attached result.size }
    {
        match open(runtime, name, access) {
            Ok((file, length)) => RealFile {
                file: Some(file),
                length,
                asked: Some(access),
            },
            Err(_) => RealFile {
                file: None,
                length: 0,
                asked: Some(access),
            },
        }
    }

    /// What the system answered to whoever asked for the file.
    pub fn answer(&self) -> Result<(), Failed>
        ensures { is_ok result ≡ self.now.attached }
    {
        match &self.file {
            Some(_) => Ok(()),
            None => Err(Failed),
        }
    }

    /// The length as it was found and moved, in bytes.
    pub fn len(&self) -> u64
        ensures { result ≡ self.now.size }
    {
        self.length
    }

    /// Fills the slice with the bytes from an offset on.
    pub fn read(&self, at: u64, into: &mut [u8]) -> Result<(), Failed> {
        let Some(file) = &self.file else {
            return Err(Failed);
        };
        match file.read_exact_at(into, at) {
            Ok(()) => Ok(()),
            Err(_) => Err(Failed),
        }
    }

    /// Writes the bytes from an offset on.
    pub fn write(&mut self, at: u64, from: &[u8]) -> Result<(), Failed>
        requires { at ≤ self.old.size }
        ensures { Grows (at + length from.now) self.old self.new result }
    {
        let Some(file) = &self.file else {
            return Err(Failed);
        };
        if at.checked_add(from.len() as u64).is_none() {
            return Err(Failed);
        }
        let done = write_some(file, at, from);
        self.length = self.length.max(at + done as u64);
        if done < from.len() {
            return Err(Failed);
        }
        Ok(())
    }

    /// Brings the file's bytes and its length to the medium.
    pub fn sync(&self) -> Result<(), Failed> {
        match &self.file {
            Some(file) if file.sync_all().is_ok() => Ok(()),
            _ => Err(Failed),
        }
    }
}
