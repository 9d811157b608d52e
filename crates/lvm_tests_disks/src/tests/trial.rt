//! A system with one folder and one file, `hdisk1.img`, which watches the calls on it.
ghost use Rattle.std.specs.Prelude.{◌≤◌, length, IfOk};

use lvm_lane::Exclusive;
use lvm_num::fill;
use std::alloc::Allocator;
use std::cell::{Cell, RefCell};
use std::fs::{Metadata, OpenFile, OpenOptions};
use std::io;
use std::io::{ErrorKind, Read, Seek, SeekFrom, Write};
use std::process::Abort;
use std::rt::Files;

// As many bytes as one call moves.
const MOST: usize = 100;

/// As many bytes as one write to a new file takes.
pub const MOST_OF_NEW: usize = 65_536;

/// What goes wrong.
#[derive(Clone, Copy)]
pub enum Fault {
    Nothing,
    Writes,
    Syncs,
    /// Another program holds what is opened by this name.
    Held(&'static str),
}

#[derive(Drop)]
pub struct Trial {
    may_write: bool,
    fault: Cell<Fault>,
    bytes: RefCell<Vec<u8>>,
    // Writes since a file was last synced, and syncs in all, those of the folder among them.
    unsynced: Cell<u32>,
    syncs: Cell<u32>,
}

impl Trial {
    /// A file of so many sectors, the first of which is filled with the word, and each other with the next.
    pub fn new(rt: &(impl Abort + AllocGlobal), may_write: bool, sectors: u32, word: u64) -> Trial {
        let mut bytes = Vec::new(rt.alloc());
        for k in 0..sectors {
            bytes
                .extend_from_slice(&fill(word.wrapping_add(u64::from(k))))
                .expect(rt, "memory");
        }
        Trial {
            may_write,
            fault: Cell::new(Fault::Nothing),
            bytes: RefCell::new(bytes),
            unsynced: Cell::new(0),
            syncs: Cell::new(0),
        }
    }

    pub fn set_fault(&self, fault: Fault) {
        self.fault.set(fault);
    }

    /// How many writes weren't synced since, and how many syncs there were.
    pub fn counts(&self) -> (u32, u32) {
        (self.unsynced.get(), self.syncs.get())
    }

    /// Whether sectors of the file are filled so.
    pub fn holds(&self, first: u64, count: u32, word: u64) -> bool {
        match self.bytes.try_borrow() {
            Ok(bytes) => are_filled(&bytes, first, count, word),
            Err(_) => false,
        }
    }

    // Whether another program holds what is opened by this name.
    fn is_held(&self, path: &str) -> bool {
        match self.fault.get() {
            Fault::Held(held) => held == path,
            _ => false,
        }
    }

    fn len(&self) -> u64 {
        match self.bytes.try_borrow() {
            Ok(bytes) => bytes.len() as u64,
            Err(_) => 0,
        }
    }
}

/// Whether sectors of a file are filled, the first with the word, and each other with the next.
pub fn are_filled(bytes: &[u8], first: u64, count: u32, word: u64) -> bool {
    if first > 1000 {
        return false;
    }
    let chunks = bytes.chunks(512).skip(first as usize);
    let wanted = (0..count).map(|k| fill(word.wrapping_add(u64::from(k))));
    chunks
        .zip(wanted)
        .filter(|(is, wanted)| *is == wanted.as_slice())
        .count()
        == count as usize
}

fn io_fault() -> io::Error {
    io::Error::from(ErrorKind::Other)
}

/// An open file. What a new one takes is counted and not kept.
#[derive(Drop)]
pub struct Opened<'a> {
    trial: &'a Trial,
    writes: bool,
    is_folder: bool,
    is_new: bool,
    is_held: bool,
    at: usize,
}

impl Opened<'_> {
    // Writes a front of the bytes behind those before, and answers how many.
    fn put(&mut self, buf: &[u8]) -> io::Result<usize>
        ensures { IfOk result (λ count. count ≤ length buf.now) }
    {
        if self.is_new {
            Ok(buf.len().min(MOST_OF_NEW))
        } else {
            self.keep(buf)
        }
    }

    fn keep(&mut self, buf: &[u8]) -> io::Result<usize>
        ensures { IfOk result (λ count. count ≤ length buf.now) }
    {
        let Ok(mut bytes) = self.trial.bytes.try_borrow_mut() else {
            return Err(io_fault());
        };
        if self.at > bytes.len() {
            return Err(io_fault());
        }
        let into = &mut bytes.as_mut_slice()[self.at..];
        let count = into.len().min(buf.len()).min(MOST);
        into[..count].copy_from_slice(&buf[..count]);
        self.at = self.at.saturating_add(count);
        Ok(count)
    }
}

impl Read for Opened<'_> {
    fn read(&mut self, buf: &mut [u8]) -> io::Result<usize> {
        let Ok(bytes) = self.trial.bytes.try_borrow() else {
            return Err(io_fault());
        };
        let from = bytes.get(self.at..).unwrap_or(&[]);
        let count = from.len().min(buf.len()).min(MOST);
        buf[..count].copy_from_slice(&from[..count]);
        self.at = self.at.saturating_add(count);
        Ok(count)
    }
}

impl Write for Opened<'_> {
    fn write(&mut self, buf: &[u8]) -> io::Result<usize> {
        if !self.writes || matches!(self.trial.fault.get(), Fault::Writes) {
            return Err(io_fault());
        }
        let count = self.put(buf)?;
        self.trial
            .unsynced
            .set(self.trial.unsynced.get().saturating_add(1));
        Ok(count)
    }

    fn flush(&mut self) -> io::Result<()> {
        Ok(())
    }
}

impl Seek for Opened<'_> {
    fn seek(&mut self, to: SeekFrom) -> io::Result<u64> {
        match to {
            SeekFrom::Start(at) => {
                self.at = at as usize;
                Ok(at)
            }
            _ => Err(io_fault()),
        }
    }
}

impl OpenFile for Opened<'_> {
    fn metadata(&self) -> io::Result<Metadata> {
        Ok(Metadata::of_file(self.trial.len()))
    }

    fn set_len(&self, _size: u64) -> io::Result<()> {
        Err(io_fault())
    }

    fn sync_all(&self) -> io::Result<()> {
        self.sync_data()
    }

    fn sync_data(&self) -> io::Result<()> {
        if matches!(self.trial.fault.get(), Fault::Syncs) {
            return Err(io_fault());
        }
        if !self.is_folder {
            self.trial.unsynced.set(0);
        }
        self.trial
            .syncs
            .set(self.trial.syncs.get().saturating_add(1));
        Ok(())
    }
}

impl Exclusive for Opened<'_> {
    fn try_exclusive(&self) -> io::Result<()> {
        if self.is_held {
            return Err(io::Error::from(ErrorKind::WouldBlock));
        }
        Ok(())
    }
}

#[derive(Drop)]
pub struct NoFolder;

impl Read for NoFolder {
    fn read(&mut self, _buf: &mut [u8]) -> io::Result<usize> {
        Ok(0)
    }
}

impl<'a> Files for &'a Trial {
    type File = Opened<'a>;

    type Dir = NoFolder;

    fn open_file(&self, how: &OpenOptions, path: &str) -> io::Result<Opened<'a>> {
        let is_there = path == "hdisk1.img" || path == ".";
        let is_new = how.asks_create_new();
        if is_new && is_there {
            return Err(io::Error::from(ErrorKind::AlreadyExists));
        }
        if !is_new && !is_there {
            return Err(io::Error::from(ErrorKind::NotFound));
        }
        if how.asks_write() && !self.may_write {
            return Err(io::Error::from(ErrorKind::PermissionDenied));
        }
        Ok(Opened {
            trial: *self,
            writes: how.asks_write(),
            is_folder: path == ".",
            is_new,
            is_held: self.is_held(path),
            at: 0,
        })
    }

    fn open_dir(&self, _path: &str) -> io::Result<NoFolder> {
        Ok(NoFolder)
    }

    fn metadata(&self, path: &str) -> io::Result<Metadata> {
        if path == "hdisk1.img" {
            Ok(Metadata::of_file(self.len()))
        } else {
            Err(io::Error::from(ErrorKind::NotFound))
        }
    }

    fn symlink_metadata(&self, path: &str) -> io::Result<Metadata> {
        self.metadata(path)
    }

    fn copy(&self, _from: &str, _to: &str) -> io::Result<u64> {
        Err(io_fault())
    }

    fn rename(&self, _from: &str, _to: &str) -> io::Result<()> {
        Err(io_fault())
    }

    fn remove_file(&self, _path: &str) -> io::Result<()> {
        Err(io_fault())
    }

    fn create_dir(&self, _path: &str) -> io::Result<()> {
        Err(io_fault())
    }

    fn remove_dir(&self, _path: &str) -> io::Result<()> {
        Err(io_fault())
    }

    fn remove_dir_all<B: Allocator>(&self, _alloc: B, _path: &str) -> io::Result<()> {
        Err(io_fault())
    }
}
