//! Image files as a shelf of disks.
ghost use Rattle.std.specs.Prelude.{◌≡◌, ◌≤◌, ◌<◌, true, length, vec_capacity};
ghost use Rattle.lvm_memory.specs.Flights.{flight_of, flights_of, Lies};
ghost use Rattle.lvm_disk.specs.Steps.{ChangedAtMost};
ghost use Rattle.lvm_lane.specs.Sound.{IsSound};

use crate::exclusive::Exclusive;
use crate::image::{Image, ImageFault, has_image};
use crate::name::image_name;
use crate::read_buffer::ReadBuffer;
use lvm_disk::{Arrange, Reaped, Shelf, Started};
use lvm_io::{Sink, write_all};
use lvm_memory::{Flying, Tally, free_ticket, take_flight};
use lvm_num::{DISKS, Memory, Pbuf};
use std::alloc::Global;
use std::fs::OpenFile;
use std::io::{ErrorKind, Read, Seek, Write};
use std::rt::Files;
use std::{fs, io};

// How many transfers may be out.
const FLIGHTS: usize = 1_024;

/// The files `hdisk0.img` to `hdisk127.img` of the current folder as disks. It has one disk more than the
/// greatest number that has a file, and one disk where none has.
///
/// A disk has the whole sectors that its file had when the shelf was made, and none where it has no
/// file, or none that can be opened. Of a file that may only be read the writes fail. A start queues
/// the transfer, and a reap carries out the oldest: a write with its sync, so that one that was
/// answered as done is durable. Where the file has become shorter, or is gone, the transfer fails.
///
/// The folder is locked before any file is opened, and each file as it is opened, for as long as the
/// shelf lasts. Of two programs in one folder one has all files and the other none: a part for each
/// might be two groups of one name. A file may be reached from two folders, so it has a lock too.
///
/// It tells no content, takes no arrangements, and its power is always on.
#[derive(Drop)]
pub struct FileShelf<F> {
    disks: Vec<Image<F>>,
    flights: Vec<Flying>,
    tally: Tally,
    room: ReadBuffer,
    // The locked folder.
    folder: Option<F>,
    ghost sound: { IsSound disks.items (flights_of flights.items) (vec_capacity flights) tally },
}

// How many disks there are by the numbers that have a file.
fn count_disks<R: Files>(rt: &R) -> u16
    ensures { (1 ≤ result) × (result ≤ 128) }
{
    let mut count = 1;
    for disk in 1..DISKS {
        if has_image(rt, disk) {
            count = disk + 1;
        }
    }
    count
}

// Says why a disk's file, or the folder, isn't used, as far as the sink takes it.
fn say_unused<E: Sink>(err: &mut E, what: &str, fault: &io::Error) {
    let why = match fault.kind() {
        ErrorKind::WouldBlock => " is in use by another program\n",
        _ => " can't be opened\n",
    };
    for text in ["lvm: ", what, why] {
        if write_all(err, text.as_bytes()).is_err() {
            return;
        }
    }
}

// The folder, locked for this program.
fn lock_folder<R: Files>(rt: &R) -> io::Result<R::File>
where
    R::File: Exclusive,
{
    let folder = fs::open(rt, ".")?;
    folder.try_exclusive()?;
    Ok(folder)
}

// The image of a disk. Where it has a file that can't be opened, or that another program holds, the sink
// is told so.
fn open_image<F, R, E>(rt: &R, disk: u16, err: &mut E) -> Image<F>
where
    F: Read + Write + Seek + OpenFile + Exclusive + Drop,
    R: Files<File = F>,
    E: Sink,
{
    match Image::open(rt, disk) {
        Ok(image) => image,
        Err(fault) => {
            if fault.kind() != ErrorKind::NotFound {
                say_unused(err, image_name(disk).as_str(), &fault);
            }
            Image::absent()
        }
    }
}

impl<F: Read + Write + Seek + OpenFile + Exclusive + Drop> FileShelf<F> {
    ghost use Rattle.std.specs.Prelude.{◌≡◌, ◌≤◌, ◌<◌, true, length, IfOk};
    ghost use Rattle.lvm_disk.specs.Steps.{IsRange, StartGives};
    ghost use Rattle.lvm_lane.specs.Files.{device_of, idle_device};

    /// Opens the files. All room that the shelf needs is taken here. Where the folder, or a file that is
    /// there, can't be opened, or another program holds it, `err` is told so in a line.
    pub fn open<R: Files<File = F>, E: Sink>(
        rt: &R,
        alloc: Global,
        err: &mut E,
    ) -> Result<FileShelf<F>, Memory>
        ensures idle { IfOk result (λ shelf. device_of shelf ≡ idle_device (device_of shelf).sizes) }
        ensures some { IfOk result (λ shelf. (1 ≤ length (device_of shelf).sizes) × (length (device_of shelf).sizes ≤ 128)) }
    {
        let folder = match lock_folder(rt) {
            Ok(folder) => Some(folder),
            Err(fault) => {
                say_unused(err, "this folder", &fault);
                None
            }
        };
        let count = count_disks(rt);
        let mut disks = Vec::new(alloc);
        for disk in 0..count {
            let image = match folder {
                Some(_) => open_image(rt, disk, err),
                None => Image::absent(),
            };
            let Ok(()) = disks.push(image) else {
                return Err(Memory);
            };
        }
        FileShelf::over(alloc, disks, folder)
    }

    /// One disk without a file. No file is opened.
    pub fn without_files(alloc: Global) -> Result<FileShelf<F>, Memory>
        ensures idle { IfOk result (λ shelf. device_of shelf ≡ idle_device (device_of shelf).sizes) }
        ensures one { IfOk result (λ shelf. length (device_of shelf).sizes ≡ 1) }
    {
        let mut disks = Vec::new(alloc);
        match disks.push(Image::absent()) {
            Ok(()) => FileShelf::over(alloc, disks, None),
            Err(_) => Err(Memory),
        }
    }

    // These disks, of which none is used yet.
    fn over(alloc: Global, disks: Vec<Image<F>>, folder: Option<F>) -> Result<FileShelf<F>, Memory>
        requires { (1 ≤ length disks.items) × (length disks.items ≤ 128) }
        ensures { IfOk result (λ shelf. device_of shelf ≡ idle_device disks.items) }
    {
        let Ok(flights) = Vec::with_capacity(alloc, FLIGHTS) else {
            return Err(Memory);
        };
        let tally = Tally::new(alloc, disks.len())?;
        let room = ReadBuffer::new(alloc)?;
        Ok(FileShelf {
            disks,
            flights,
            tally,
            room,
            folder,
        })
    }

    fn start(&mut self, disk: u16, first: u64, count: u32, write: bool, buf: Pbuf) -> Started
        requires range { IsRange (device_of self.old) disk first count }
        requires few { length (device_of self.old).flights < 1024 }
        ensures gives { StartGives (device_of self.old) (device_of self.new) disk first count write buf result }
    {
        let ticket = free_ticket(&self.flights);
        match self.flights.push(Flying {
            ticket,
            disk,
            first,
            count,
            write,
            buf,
            delay: 0,
        }) {
            Ok(()) => {}
            Err(_) => unreachable!(),
        }
        self.tally.count_start(disk);
        Started::Ticket(ticket)
    }
}

// Carries out a transfer.
fn carry_out<F: Read + Write + Seek + OpenFile + Exclusive + Drop>(
    disks: &mut Vec<Image<F>>,
    flying: &mut Flying,
    room: &mut ReadBuffer,
) -> Result<(), ImageFault>
    requires lies { Lies disks.old.items (flight_of flying.old) }
    ensures sizes { disks.new.items ≡ disks.old.items }
    ensures same { flying.new ≡ record flying.old { buf = flying.new.buf } }
    ensures kept { flying.old.write ≡ true → flying.new.buf ≡ flying.old.buf }
    ensures rest { ChangedAtMost flying.old.count flying.old.buf flying.new.buf }
{
    let image = &mut disks[flying.disk as usize];
    if flying.write {
        image.write(flying.first, flying.count, &flying.buf)
    } else {
        image.read(flying.first, flying.count, &mut flying.buf, room)
    }
}

impl<F: Read + Write + Seek + OpenFile + Exclusive + Drop> Shelf for FileShelf<F> {
    ghost use Rattle.std.specs.Prelude.{◌≡◌, ◌⊎◌, ◌<◌, true, false, length};
    ghost use Rattle.lvm_disk.specs.Steps.{IsRange, StartGives, ReapGives};
    ghost use Rattle.lvm_lane.specs.Files.{device_of, EndsOldest};

    ghost device = { device_of };

    ghost sectors_are_whole = { λ shelf. tt };

    fn disks(&self) -> u16 {
        self.disks.len() as u16
    }

    fn sectors(&self, disk: u16) -> u64 {
        self.disks[disk as usize].sectors()
    }

    fn flights(&self) -> u32 {
        self.flights.len() as u32
    }

    fn faults(&self, disk: u16) -> u64 {
        self.tally.faults(disk)
    }

    fn start_write(&mut self, disk: u16, first: u64, count: u32, buf: Pbuf) -> Started {
        self.start(disk, first, count, true, buf)
    }

    fn start_read(&mut self, disk: u16, first: u64, count: u32, buf: Pbuf) -> Started {
        self.start(disk, first, count, false, buf)
    }

    fn reap(&mut self) -> Reaped
        requires { (0 < length (device_of self.old).flights) ⊎ ((device_of self.old).power ≡ false) }
        ensures gives { ReapGives (device_of self.old) (device_of self.new) result }
        // It ends the oldest transfer, and so is never empty nor dark.
        ensures oldest { EndsOldest (device_of self.old) (device_of self.new) result }
    {
        let mut flying = take_flight(&mut self.flights, 0, true);
        match carry_out(&mut self.disks, &mut flying, &mut self.room) {
            Ok(()) => Reaped::Done {
                ticket: flying.ticket,
                buf: flying.buf,
            },
            Err(ImageFault) => {
                self.tally.count_failure(&flying);
                Reaped::Failed {
                    ticket: flying.ticket,
                    buf: flying.buf,
                }
            }
        }
    }

    fn next_freed(&mut self) -> Option<Pbuf> {
        None
    }

    fn light(&mut self) {}

    fn arrange(&mut self, _what: Arrange) -> bool {
        false
    }
}
