// The system that the program runs on. That these lines make the right calls of std, and that std answers as the system did, is trusted.
//
// Each slot has a place of its own, so nothing here allocates.
//
// A call that was interrupted is made again, and is none of the desk's faults; std does so itself for opening, emptying and syncing.
// Emptying and syncing may be invalid for a pipe or a device (EINVAL) and then count as done; for a regular file that is a fault.
use crate::opened::{Opened, id_of};
use crate::{FileId, System};
use pb_base::Failed;
use std::fs::{self, File, OpenOptions};
use std::io::{self, ErrorKind, Print, Read, Write};
use std::os::fd::AsRawFd;
use std::rt::Files;

/// The system's files and standard output. It keeps each file open until its slot gets another, and no record of its calls.
#[derive(Drop)]
pub struct Host<'a, R: Files<File = File> + Print> {
    system: &'a R,
    closed: [Option<File>; 3],
    output: Option<FileId>,
    reading: [Option<Opened>; 5],
    writing: [Option<Opened>; 2],
}

impl<'a, R: Files<File = File> + Print> Host<'a, R> {
    /// Makes the system that the program runs on, before any file is opened.
    pub fn new(system: &'a R) -> Self {
        let closed = take_closed(system);
        Host {
            system,
            closed,
            output: output_of(system),
            reading: [None, None, None, None, None],
            writing: [None, None],
        }
    }

    // Returns the file that a slot reads.
    fn to_read(&self, slot: u8) -> Result<&File, Failed> {
        match self.reading.get(slot as usize) {
            Some(Some(opened)) => Ok(opened.file()),
            _ => Err(Failed),
        }
    }

    // Returns the file that a slot writes.
    fn to_write(&self, slot: u8) -> Result<&File, Failed> {
        match self.writing.get(slot as usize) {
            Some(Some(opened)) => Ok(opened.file()),
            _ => Err(Failed),
        }
    }
}

// Stores a file that was opened, and returns its identity, if the system has one for it.
fn keep(place: &mut Option<Opened>, file: File) -> Result<Option<FileId>, Failed> {
    let id = id_of(file.metadata())?;
    *place = Some(Opened::new(file)?);
    Ok(id)
}

// Opens the root folder in place of each standard stream that is closed, so that no file gets its number: the system gives the lowest
// free number first. What is read from the root folder, or written there, fails.
fn take_closed<R: Files<File = File>>(system: &R) -> [Option<File>; 3] {
    let mut closed = [None, None, None];
    for place in &mut closed {
        match fs::open(system, "/") {
            Ok(file) if file.as_raw_fd() <= 2 => *place = Some(file),
            _ => break,
        }
    }
    closed
}

// Returns the identity of standard output, by the name that Linux has for it, since std has no other way; `None` if the system has no
// such name.
fn output_of<R: Files<File = File>>(system: &R) -> Option<FileId> {
    id_of(fs::metadata(system, "/proc/self/fd/1")).unwrap_or(None)
}

// True if the system says that the file is a pipe or a device.
fn is_device(file: &File) -> bool {
    match file.metadata() {
        Ok(data) => !data.is_file(),
        Err(_) => false,
    }
}

// Ignores the refusal to empty or sync a pipe or a device, which has no bytes to take away, and nothing to wait for.
fn unless_device(file: &File, answer: io::Result<()>) -> Result<(), Failed> {
    match answer {
        Ok(()) => Ok(()),
        Err(error) if error.kind() == ErrorKind::InvalidInput && is_device(file) => Ok(()),
        Err(_) => Err(Failed),
    }
}

impl<'a, R: Files<File = File> + Print> System for Host<'a, R> {
    ghost use Rattle.std.specs.Prelude.{None};

    ghost calls = { λ host. None };

    ghost files = { λ host name. None };

    ghost output = { λ host. host.output };

    // Returns the identity of standard output, as it was at the start.
    fn output(&self) -> Option<FileId> {
        self.output
    }

    // Opens a file to read, and stores it in the slot.
    fn open(&mut self, slot: u8, name: &str) -> Result<Option<FileId>, Failed> {
        match fs::open(self.system, name) {
            Ok(file) => keep(&mut self.reading[slot as usize], file),
            Err(_) => Err(Failed),
        }
    }

    // Opens a file to write as it is, or makes it, and stores it in the slot.
    fn create(&mut self, slot: u8, name: &str) -> Result<Option<FileId>, Failed> {
        let mut options = OpenOptions::new();
        options.write(true).create(true);
        match options.open(self.system, name) {
            Ok(file) => keep(&mut self.writing[slot as usize], file),
            Err(_) => Err(Failed),
        }
    }

    // Empties the slot's file; a pipe or a device stays as it is.
    fn truncate(&mut self, slot: u8) -> Result<(), Failed> {
        let file = self.to_write(slot)?;
        unless_device(file, file.set_len(0))
    }

    // Reads the next bytes of the slot's file, again after each interrupt.
    fn read(&mut self, slot: u8, room: &mut [u8]) -> Result<usize, Failed> {
        let mut file = self.to_read(slot)?;
        for _ in 0..u64::MAX {
            match file.read(room) {
                Ok(count) => return Ok(count),
                Err(error) if error.kind() == ErrorKind::Interrupted => {}
                Err(_) => return Err(Failed),
            }
        }
        Err(Failed)
    }

    // Writes a first part of the piece, again after each interrupt.
    fn write(&mut self, slot: u8, piece: &[u8]) -> Result<usize, Failed> {
        let mut file = self.to_write(slot)?;
        for _ in 0..u64::MAX {
            match file.write(piece) {
                Ok(count) => return Ok(count),
                Err(error) if error.kind() == ErrorKind::Interrupted => {}
                Err(_) => return Err(Failed),
            }
        }
        Err(Failed)
    }

    // Waits until the disk has the bytes of the slot's file; nothing for a pipe or a device.
    fn sync(&mut self, slot: u8) -> Result<(), Failed> {
        let file = self.to_write(slot)?;
        unless_device(file, file.sync_all())
    }

    // Prints a first part of the piece, again after each interrupt.
    fn say(&mut self, piece: &[u8]) -> Result<usize, Failed> {
        for _ in 0..u64::MAX {
            match io::writer(self.system).write(piece) {
                Ok(count) => return Ok(count),
                Err(error) if error.kind() == ErrorKind::Interrupted => {}
                Err(_) => return Err(Failed),
            }
        }
        Err(Failed)
    }
}
