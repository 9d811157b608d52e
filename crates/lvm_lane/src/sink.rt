//! A sink that makes image files.
ghost use Rattle.std.specs.Prelude.{◌≡◌, ◌<◌, ◌≤◌, false, None, Some, is_some, length, IsTrue, IsOk, IfOk};

use crate::exclusive::Exclusive;
use crate::name::image_name;
use lvm_io::{Images, Put, Sink};
use std::fs::{File, OpenFile};
use std::io::{ErrorKind, Write};
use std::marker::Model;
use std::rt::Files;
use std::{fs, io};

/// A sink for the files `hdisk0.img` and so on of the current folder. Contracts see the number of its
/// faults, the disk that was chosen, how often one was, and what the choice tells of a file that was there
/// already. When it tells so no clause says.
///
/// It makes no file before a disk is chosen, and none where there is one of that name: what a disk
/// holds is never written over. Until a disk is chosen, and where its file can't be made, each write
/// fails. What it took is synced after each 64 MiB, and where it is settled. After a fault each write
/// fails. No other program uses the file meanwhile.
#[derive(Drop)]
pub struct ImageSink<'a, R: Files> {
    files: &'a R,
    file: Option<R::File>,
    disk: Option<u16>,
    choices: u64,
    faults: u64,
    // Bytes since the last sync.
    unsynced: u64,
    // Whether there was a file of the chosen disk already.
    taken: bool,
}

// So many bytes are synced at once.
const SYNC: u64 = 67_108_864;

impl<'a, R: Files> Model for ImageSink<'a, R> {
    ghost use Rattle.std.specs.Prelude.{◌≡◌, None, IsTrue};
    ghost use Rattle.lvm_lane.specs.Sink.{SinkState};

    ghost Value = { SinkState };

    ghost view = { λ s. record { chosen = s.disk; choices = s.choices; faults = s.faults; taken = s.taken } };

    ghost invariant = { λ s. (s.disk ≡ None → s.file ≡ None) × (IsTrue s.taken → s.file ≡ None) };
}

impl<'a, R: Files> ImageSink<'a, R> {
    /// A sink for which no disk is chosen yet.
    pub fn new(rt: &'a R) -> ImageSink<'a, R>
        ensures { result ≡ record { chosen = None; choices = 0; faults = 0; taken = false } }
    {
        ImageSink {
            files: rt,
            file: None,
            disk: None,
            choices: 0,
            faults: 0,
            unsynced: 0,
            taken: false,
        }
    }

    /// Whether a disk was chosen.
    pub fn is_chosen(&self) -> bool
        ensures { result ≡ is_some self.now.chosen }
    {
        self.disk.is_some()
    }

    /// Whether no image was made of the disk that was chosen last, since it has one, as the system told. Each
    /// write fails then.
    pub fn is_taken(&self) -> bool
        ensures { result ≡ self.now.taken }
    {
        self.taken
    }

    /// Sees that what it took is durable.
    pub fn settle(&self) -> io::Result<()>
        ensures unchosen { self.now.chosen ≡ None → IsOk result }
        ensures taken { IsTrue self.now.taken → IsOk result }
    {
        match &self.file {
            Some(file) => file.sync_data(),
            None => Ok(()),
        }
    }
}

// Makes a file that isn't there yet, and sees that its folder keeps it. It is this program's alone.
fn make_file<R: Files>(files: &R, name: &str) -> io::Result<R::File>
where
    R::File: Exclusive,
{
    let file = File::create_new(files, name)?;
    file.try_exclusive()?;
    sync_folder(files)?;
    Ok(file)
}

// Sees that the current folder keeps its files.
fn sync_folder<R: Files>(files: &R) -> io::Result<()> {
    fs::open(files, ".")?.sync_all()
}

// Writes a front of the bytes, after so many that aren't synced. Answers how many it took, and how many
// aren't synced then: it sees to that where they are many.
fn put<F: Write + OpenFile>(file: &mut F, from: &[u8], unsynced: u64) -> io::Result<(usize, u64)>
    requires { 0 < length from.now }
    ensures { IfOk result (λ it. (1 ≤ it.0) × (it.0 ≤ length from.now)) }
{
    let count = file.write(from)?;
    if count == 0 {
        return Err(io::Error::from(ErrorKind::WriteZero));
    }
    let unsynced = unsynced.saturating_add(count as u64);
    if unsynced < SYNC {
        return Ok((count, unsynced));
    }
    file.sync_data()?;
    Ok((count, 0))
}

impl<'a, R: Files> Sink for ImageSink<'a, R> {
    ghost use Rattle.lvm_io.specs.Count.{Rose};
    ghost use Rattle.lvm_io.specs.Stream.{WriteGives};

    ghost held = { λ _. None };

    ghost faults = { λ s. s.faults };

    ghost chosen = { λ s. s.chosen };

    ghost choices = { λ s. s.choices };

    fn write(&mut self, from: &[u8]) -> Put
        requires { 0 < length from.now }
        ensures bytes { WriteGives None None from.now result }
        ensures image { (self.new.chosen ≡ self.old.chosen) × (self.new.choices ≡ self.old.choices) }
        ensures later { self.old.faults ≤ self.new.faults }
        ensures cause { result ≡ Put.Failed → Rose self.old.faults self.new.faults }
        ensures well { (result ≡ Put.Failed → ⊥) → self.new.faults ≡ self.old.faults }
        ensures unmade { self.old.chosen ≡ None → result ≡ Put.Failed }
        ensures taken { (self.new.taken ≡ self.old.taken) × (IsTrue self.old.taken → result ≡ Put.Failed) }
    {
        if let Some(mut file) = self.file.take() {
            if let Ok((count, unsynced)) = put(&mut file, from, self.unsynced) {
                self.file = Some(file);
                self.unsynced = unsynced;
                return Put::Took(count);
            }
        }
        self.faults = self.faults.saturating_add(1);
        Put::Failed
    }
}

impl<'a, R: Files> Images for ImageSink<'a, R>
where
    R::File: Exclusive,
{
    fn choose(&mut self, disk: u16) {
        let made = make_file(self.files, image_name(disk).as_str());
        self.taken = matches!(&made, Err(fault) if fault.kind() == ErrorKind::AlreadyExists);
        self.file = made.ok();
        self.disk = Some(disk);
        self.choices = self.choices.saturating_add(1);
        self.unsynced = 0;
    }
}
