//! The edge over the system's file, which tells nothing of its content.
ghost use Rattle.std.specs.Prelude.{◌≡◌, IsErr};
ghost use Rattle.sed_outside.specs.Cause.{HasCause};
ghost use Rattle.disk_model.specs.SystemDisk.{system_meaning, system_is_disk};

use crate::disk::{Disk, DiskFault};
use std::fs::{OpenFile, OpenOptions};
use std::os::unix::fs::FileExt;
use std::{io, rt};

/// One file of the system, under the name that was attached last. It counts its calls and its faults and tells nothing
/// else. Where no name is attached, at first and after an attach that failed, each call fails.
#[derive(Drop)]
pub struct FileDisk<'a, R: rt::Files> {
    rt: &'a R,
    file: Option<R::File>,
    faults: u64,
    made: u64,
}

impl<'a, R: rt::Files> FileDisk<'a, R>
where
    R::File: FileExt,
{
    /// No file yet, no fault and no call.
    pub fn new(rt: &'a R) -> FileDisk<'a, R>
        ensures faults { (⟦<FileDisk<'a, R> as Disk>⟧.meaning result).faults ≡ 0 }
        ensures calls { (⟦<FileDisk<'a, R> as Disk>⟧.meaning result).calls ≡ 0 }
    {
        FileDisk {
            rt,
            file: None,
            faults: 0,
            made: 0,
        }
    }
}

// Opens the file of that name to read and to write, or makes an empty one.
fn open_or_make<R: rt::Files>(rt: &R, name: &str) -> io::Result<R::File> {
    OpenOptions::new()
        .read(true)
        .write(true)
        .create(true)
        .open(rt, name)
}

// What a call says where no name is attached.
fn not_attached() -> io::Error {
    io::Error::from(io::ErrorKind::NotFound)
}

fn size_of<F: OpenFile>(file: &Option<F>) -> io::Result<u64> {
    match file {
        Some(file) => Ok(file.metadata()?.len()),
        None => Err(not_attached()),
    }
}

fn read_from<F: FileExt>(file: &Option<F>, at: u64, into: &mut [u8]) -> io::Result<()> {
    match file {
        Some(file) => file.read_exact_at(into, at),
        None => Err(not_attached()),
    }
}

fn write_to<F: FileExt>(file: &Option<F>, at: u64, bytes: &[u8]) -> io::Result<()> {
    match file {
        Some(file) => file.write_all_at(bytes, at),
        None => Err(not_attached()),
    }
}

fn sync_file<F: OpenFile>(file: &Option<F>) -> io::Result<()> {
    match file {
        Some(file) => file.sync_all(),
        None => Err(not_attached()),
    }
}

// What the system answered, where an error is a fault that is counted.
fn answered<T>(answer: io::Result<T>, faults: &mut u64) -> Result<T, DiskFault>
    ensures cause { HasCause faults.old faults.new (IsErr result) }
{
    match answer {
        Ok(value) => Ok(value),
        Err(_) => {
            *faults = faults.saturating_add(1);
            Err(DiskFault::Failed)
        }
    }
}

impl<'a, R: rt::Files> Disk for FileDisk<'a, R>
where
    R::File: FileExt,
{
    ghost meaning = { λ d. system_meaning d.faults d.made };

    ghost is_disk = { λ d. system_is_disk d.faults d.made };

    fn attach(&mut self, name: &str) -> Result<(), DiskFault> {
        self.made = self.made.saturating_add(1);
        self.file = None;
        let file = answered(open_or_make(self.rt, name), &mut self.faults)?;
        self.file = Some(file);
        Ok(())
    }

    fn size(&mut self) -> Result<u64, DiskFault> {
        self.made = self.made.saturating_add(1);
        answered(size_of(&self.file), &mut self.faults)
    }

    fn read(&mut self, at: u64, into: &mut [u8]) -> Result<(), DiskFault> {
        self.made = self.made.saturating_add(1);
        answered(read_from(&self.file, at, into), &mut self.faults)
    }

    fn write_at(&mut self, at: u64, bytes: &[u8]) -> Result<(), DiskFault> {
        self.made = self.made.saturating_add(1);
        answered(write_to(&self.file, at, bytes), &mut self.faults)
    }

    fn sync(&mut self) -> Result<(), DiskFault> {
        self.made = self.made.saturating_add(1);
        answered(sync_file(&self.file), &mut self.faults)
    }

    fn acknowledge(&mut self) {
        self.made = self.made.saturating_add(1);
    }
}
