//! One image file.
ghost use Rattle.std.specs.Prelude.{◌≡◌, ◌+◌, ◌≤◌, ◌<◌, ◌*◌, ◌^◌};
ghost use Rattle.lvm_disk.specs.Steps.{ChangedAtMost};

use crate::exclusive::Exclusive;
use crate::name::image_name;
use crate::read_buffer::ReadBuffer;
use lvm_num::Pbuf;
use std::fs::{Metadata, OpenFile, OpenOptions};
use std::io::{ErrorKind, Read, Seek, SeekFrom, Write};
use std::marker::Model;
use std::os::unix::fs::MetadataExt;
use std::rt::Files;
use std::{fs, io};

/// A transfer to or from an image file failed.
#[derive(Clone, Copy)]
pub struct ImageFault;

/// The image file of a disk. Contracts see how many sectors it has, which is settled when it is opened.
#[derive(Drop)]
pub struct Image<F> {
    /// None where there is no file that can be opened, and once a sync has failed.
    file: Option<F>,
    sectors: u64,
}

impl<F> Model for Image<F> {
    ghost use Rattle.std.specs.Prelude.{ℕ, ◌<◌, ◌^◌};

    ghost Value = { ℕ };

    ghost view = { λ i. i.sectors };

    ghost invariant = { λ i. i.sectors < 2 ^ 55 };
}

/// Whether a disk has a file, or something else of that name, as the system tells; where it doesn't tell, it has.
pub(crate) fn has_image<R: Files>(rt: &R, disk: u16) -> bool {
    match fs::exists(rt, image_name(disk).as_str()) {
        Ok(there) => there,
        Err(_) => true,
    }
}

// A file that is no longer in any folder. A file that isn't the system's has no node, and stays.
fn is_removed(found: &Metadata) -> bool {
    found.nlink() == 0 && found.ino() != 0
}

// Fails where the file is gone, or has fewer bytes than this.
fn see_bytes<F: OpenFile>(file: &F, bytes: u64) -> io::Result<()> {
    let found = file.metadata()?;
    if found.len() < bytes || is_removed(&found) {
        return Err(io::Error::from(ErrorKind::UnexpectedEof));
    }
    Ok(())
}

// Writes the buffer's first sectors to the file from sector `first` on.
fn put<F: Write + Seek + OpenFile>(
    file: &mut F,
    first: u64,
    count: u32,
    buf: &Pbuf,
) -> io::Result<()>
    requires within { first + count < 2 ^ 55 }
    requires most { count ≤ 256 }
{
    see_bytes(file, 512 * (first + count as u64))?;
    file.seek(SeekFrom::Start(512 * first))?;
    file.write_all(buf.front(count))
}

// Fills the buffer's first sectors from the file from sector `first` on, by way of the room.
fn get<F: Read + Seek + OpenFile>(
    file: &mut F,
    first: u64,
    count: u32,
    buf: &mut Pbuf,
    room: &mut ReadBuffer,
) -> io::Result<()>
    requires within { first + count < 2 ^ 55 }
    requires most { count ≤ 256 }
    ensures { ChangedAtMost count buf.old buf.new }
{
    see_bytes(file, 512 * (first + count as u64))?;
    file.seek(SeekFrom::Start(512 * first))?;
    room.read_front(file, count)?;
    for k in 0..count {
        buf.set_sector(k, room.sector(k));
    }
    Ok(())
}

impl<F: Read + Write + Seek + OpenFile + Exclusive + Drop> Image<F> {
    /// The image of a disk, which is this program's alone from now on. It has the whole sectors of the
    /// file. A file that can't be opened for writing is opened for reading alone. Where another program
    /// holds the file, the error is of the kind `WouldBlock`. No clause says which file it is.
    pub(crate) fn open<R: Files<File = F>>(rt: &R, disk: u16) -> io::Result<Image<F>> {
        let (file, bytes) = open_file(rt, image_name(disk).as_str())?;
        Ok(Image {
            file: Some(file),
            sectors: bytes / 512,
        })
    }

    /// The image of a disk without a file. It has no sectors.
    pub fn absent() -> Image<F>
        ensures { result ≡ 0 }
    {
        Image {
            file: None,
            sectors: 0,
        }
    }

    /// How many sectors it has.
    pub fn sectors(&self) -> u64
        ensures { result ≡ self.now }
    {
        self.sectors
    }

    /// Writes the buffer's first `count` sectors from sector `first` on, and sees that they are durable.
    /// What of them a fault leaves is synced too, since it may be read. After a sync that failed nobody
    /// knows what the system still holds, and the file is used no more.
    pub fn write(&mut self, first: u64, count: u32, buf: &Pbuf) -> Result<(), ImageFault>
        requires within { first + count ≤ self.old }
        requires most { count ≤ 256 }
        ensures same { self.new ≡ self.old }
    {
        let Some(mut file) = self.file.take() else {
            return Err(ImageFault);
        };
        let written = put(&mut file, first, count, buf).is_ok();
        if file.sync_data().is_err() {
            return Err(ImageFault);
        }
        self.file = Some(file);
        if written { Ok(()) } else { Err(ImageFault) }
    }

    /// Reads `count` sectors from sector `first` on to the buffer's first. After a fault the buffer's
    /// first sectors may be anything.
    pub fn read(
        &mut self,
        first: u64,
        count: u32,
        buf: &mut Pbuf,
        room: &mut ReadBuffer,
    ) -> Result<(), ImageFault>
        requires within { first + count ≤ self.old }
        requires most { count ≤ 256 }
        ensures same { self.new ≡ self.old }
        ensures rest { ChangedAtMost count buf.old buf.new }
    {
        let Some(file) = &mut self.file else {
            return Err(ImageFault);
        };
        match get(file, first, count, buf, room) {
            Ok(()) => Ok(()),
            Err(_) => Err(ImageFault),
        }
    }
}

// Opens an ordinary file, for reading and writing where that may be, and says how long it is. Anything
// else of that name isn't opened: to open a pipe may wait for ever.
fn open_file<R: Files>(rt: &R, name: &str) -> io::Result<(R::File, u64)>
where
    R::File: Exclusive,
{
    see_ordinary(rt, name)?;
    let file = open_either(rt, name)?;
    let bytes = take_bytes(&file)?;
    Ok((file, bytes))
}

// Fails where the name isn't that of an ordinary file.
fn see_ordinary<R: Files>(rt: &R, name: &str) -> io::Result<()> {
    if fs::metadata(rt, name)?.is_file() {
        Ok(())
    } else {
        Err(io::Error::from(ErrorKind::InvalidInput))
    }
}

// Opens a file for reading and writing, or else for reading alone.
fn open_either<R: Files>(rt: &R, name: &str) -> io::Result<R::File> {
    match OpenOptions::new().read(true).write(true).open(rt, name) {
        Ok(file) => Ok(file),
        Err(_) => fs::open(rt, name),
    }
}

// Has a file for this program alone, and says how long it is. What a program that was killed left there is
// synced, since it may be read.
fn take_bytes<F: OpenFile + Exclusive>(file: &F) -> io::Result<u64> {
    file.try_exclusive()?;
    file.sync_data()?;
    Ok(file.metadata()?.len())
}
