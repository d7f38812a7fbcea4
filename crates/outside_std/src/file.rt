//! A disk over a file.

ghost use Rattle.std.specs.Prelude.{◌≡◌, ◌<◌, ◌^◌, None, IfOk};
ghost use Rattle.std.specs.Fs.{IsFile, file_type, metadata_len};

use crate::OpenFault;
use disk_log::Disk;
use outside::{Failed, OutFault};
use std::fs::{self, File, Metadata, OpenOptions, TryLockError};
use std::io;
use std::marker::Model;
use std::os::fd::AsRawFd;
use std::os::unix::fs::{FileExt, MetadataExt};
use std::path::Path;

/// Every file has fewer bytes than this.
const LIMIT: u64 = 1 << 63;

/// A file of the operating system as a disk. It does not show its bytes. Contracts see the metadata that the system
/// gave when it was opened, its size, and its count of faults.
#[derive(Drop)]
pub struct FileDisk {
    file: File,
    opened: Metadata,
    extent: u64,
    faults: u64,
}

impl Model for FileDisk {
    ghost use Rattle.std.specs.Prelude.{◌<◌, ◌^◌};
    ghost use Rattle.outside_std.specs.Files.{FileState};

    ghost Value = { FileState };

    ghost view = { λ s. record { opened = s.opened; extent = s.extent; faults = s.faults } };

    ghost invariant = { λ s. s.extent < 2 ^ 63 };
}

/// Whether a missing file is created.
#[derive(Clone, Copy, Debug, PartialEq, Eq)]
pub enum Missing {
    IsMade,
    IsRefused,
}

/// Opens a file for reads and writes, under a descriptor above those of the standard streams: if one of these was
/// closed, what is meant for it must not land in the file.
fn open_file(rt: &HostRuntime, path: &str, missing: Missing) -> io::Result<File> {
    let file = OpenOptions::new()
        .read(true)
        .write(true)
        .create(missing == Missing::IsMade)
        .open(rt, path)?;
    if file.as_raw_fd() <= 2 {
        return file.try_clone();
    }
    Ok(file)
}

/// Whether a symbolic link stands at a path. If it led to nothing, opening it would create the file that it names.
fn is_link(rt: &HostRuntime, path: &str) -> io::Result<bool> {
    match fs::symlink_metadata(rt, path) {
        Ok(named) => Ok(named.file_type().is_symlink()),
        Err(error) if error.kind() == io::ErrorKind::NotFound => Ok(false),
        Err(error) => Err(error),
    }
}

/// Whether the path still names the file that was opened, and not one that took its name meanwhile.
fn is_named(rt: &HostRuntime, file: &File, path: &str) -> io::Result<bool> {
    let opened = file.metadata()?;
    let named = fs::symlink_metadata(rt, path)?;
    Ok(opened.dev() == named.dev() && opened.ino() == named.ino())
}

/// The metadata of an open file; refused if it is not a plain file.
fn plain(file: &File) -> Result<Metadata, OpenFault>
    ensures { IfOk result (λ said. IsFile (file_type said)) }
{
    let said = file.metadata()?;
    if said.is_file() {
        Ok(said)
    } else {
        Err(OpenFault::NotPlain)
    }
}

/// Opens a plain file for reads and writes, and locks it, so that no other `FileDisk` has it open.
fn open_alone(rt: &HostRuntime, path: &str, missing: Missing) -> Result<File, OpenFault> {
    if is_link(rt, path)? {
        return Err(OpenFault::Link);
    }
    let file = open_file(rt, path, missing)?;
    let _said = plain(&file)?;
    match file.try_lock() {
        Ok(()) => {}
        Err(TryLockError::WouldBlock) => return Err(OpenFault::Held),
        Err(TryLockError::Error(error)) => return Err(OpenFault::System(error)),
    }
    if !is_named(rt, &file, path)? {
        return Err(OpenFault::Replaced);
    }
    Ok(file)
}

/// The folder in which a file of this path stands.
fn folder_of(path: &str) -> &str {
    match Path::new(path).parent() {
        Some(folder) if !folder.as_str().is_empty() => folder.as_str(),
        _ => ".",
    }
}

/// Makes the file and its name safe from a crash.
fn settle(rt: &HostRuntime, file: &File, path: &str) -> io::Result<()> {
    file.sync_all()?;
    File::open(rt, folder_of(path))?.sync_all()
}

/// Whether the bytes of a file of this size may be a log's: the first, if there is one, is a closed or an open gate.
fn may_be_log(file: &File, extent: u64) -> io::Result<bool> {
    if extent == 0 {
        return Ok(true);
    }
    let mut gate = [0];
    file.read_exact_at(gate.as_mut_slice(), 0)?;
    Ok(gate[0] <= 1)
}

impl FileDisk {
    /// Opens the file at a path for a log. The path is not a symbolic link, and the first byte of the file, if it has
    /// one, is 0 or 1. No other `FileDisk` has the file open then, and the path still names it. It has met no fault
    /// yet, and the system says that it is a plain file of this size. No clause says what it holds, or that it is the
    /// one at the path: no contract speaks of the system's files.
    pub fn open(rt: &HostRuntime, path: &str, missing: Missing) -> Result<FileDisk, OpenFault>
        ensures faults { IfOk result (λ disk. disk.faults ≡ 0) }
        ensures plain { IfOk result (λ disk. IsFile (file_type disk.opened)) }
        ensures extent { IfOk result (λ disk. disk.extent ≡ metadata_len disk.opened) }
        ensures size { IfOk result (λ disk. disk.extent < 2 ^ 63) }
    {
        let file = open_alone(rt, path, missing)?;
        settle(rt, &file, path)?;
        let opened = plain(&file)?;
        let extent = opened.len();
        if extent >= LIMIT {
            return Err(OpenFault::TooLarge);
        }
        if !may_be_log(&file, extent)? {
            return Err(OpenFault::NotLog);
        }
        Ok(FileDisk {
            file,
            opened,
            extent,
            faults: 0,
        })
    }
}

/// Each error of the system counts as one fault.
impl Disk for FileDisk {
    ghost history = { λ _. None };

    ghost extent = { λ d. d.extent };

    ghost failed = { λ d. d.faults };

    ghost sized = { λ _. tt };

    ghost seen = { λ _. tt };

    fn size(&self) -> u64 {
        self.extent
    }

    fn faults(&self) -> u64 {
        self.faults
    }

    fn read_at(&mut self, at: u64, buffer: &mut [u8]) -> Result<(), Failed> {
        match self.file.read_exact_at(buffer, at) {
            Ok(()) => Ok(()),
            Err(_) => {
                self.faults = self.faults.saturating_add(1);
                Err(Failed)
            }
        }
    }

    fn write_at(&mut self, at: u64, bytes: &[u8]) -> Result<(), OutFault> {
        match self.file.write_all_at(bytes, at) {
            Ok(()) => {
                self.extent = self.extent.max(at + bytes.len() as u64);
                Ok(())
            }
            Err(_) => {
                self.faults = self.faults.saturating_add(1);
                Err(OutFault::Failed)
            }
        }
    }

    fn sync(&mut self) -> Result<(), Failed> {
        match self.file.sync_data() {
            Ok(()) => Ok(()),
            Err(_) => {
                self.faults = self.faults.saturating_add(1);
                Err(Failed)
            }
        }
    }
}
