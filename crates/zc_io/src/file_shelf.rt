// Disk sets in the files of a folder.
ghost use Rattle.std.specs.Prelude.{◌≡◌, ℕ, ◌≤◌, false, [], OnOk, IfOk, IsErrOf};
ghost use Rattle.std.specs.Vec.{vec_len};
ghost use Rattle.zc_io.specs.Stock.{Stock};
ghost use Rattle.zc_tape.specs.Cause.{Rose};

use crate::device_file::{DeviceFile, PLACE, sync_each};
use crate::file_disks::FileDisks;
use crate::shelf::{Shelf, ShelfFault};
use std::alloc::Global;
use std::fs::{Files, OpenFile, OpenOptions};
use std::io;
use std::io::ErrorKind;
use std::os::unix::fs::FileExt;
use zc_num::Name;
use zc_tape::Failed;

// A set of more devices is not looked for.
const MOST_DEVICES: u32 = 5;

/// Device k of pool NAME is the file `NAME.k` of the current folder.
#[derive(Drop)]
pub struct FileShelf<R> {
    alloc: Global,
    files: R,
    faults: u64,
}

impl<R: Files + Drop> FileShelf<R> {
    /// The shelf of the current folder.
    pub fn new(alloc: Global, files: R) -> FileShelf<R>
        ensures { result.faults ≡ 0 }
    {
        FileShelf {
            alloc,
            files,
            faults: 0,
        }
    }

    // Counts a call that failed.
    fn counted<T>(&mut self, done: Result<T, ShelfFault>) -> Result<T, ShelfFault>
        ensures answer { result ≡ done }
        ensures later { self.old.faults ≤ self.new.faults }
        ensures cause { IsErrOf done ShelfFault.Failed → Rose self.old.faults self.new.faults }
    {
        if let Err(ShelfFault::Failed) = &done {
            self.faults = self.faults.saturating_add(1);
        }
        done
    }
}

fn path_of(alloc: Global, name: &Name, device: u32) -> Result<String, ShelfFault>
    ensures present { IsErrOf result ShelfFault.Present → ⊥ }
    ensures missing { IsErrOf result ShelfFault.Missing → ⊥ }
{
    match str::from_utf8(name.bytes()) {
        Ok(text) => format!(in alloc; "{text}.{device}").map_err(|_| ShelfFault::NoMemory),
        Err(_) => Err(ShelfFault::Failed),
    }
}

// The file of a device, or None where it isn't there.
fn open_device<R: Files>(
    alloc: Global,
    files: &R,
    name: &Name,
    device: u32,
) -> Result<Option<R::File>, ShelfFault>
    ensures present { IsErrOf result ShelfFault.Present → ⊥ }
    ensures missing { IsErrOf result ShelfFault.Missing → ⊥ }
{
    let path = path_of(alloc, name, device)?;
    match OpenOptions::new()
        .read(true)
        .write(true)
        .open(files, path.as_str())
    {
        Ok(file) => Ok(Some(file)),
        Err(error) if error.kind() == ErrorKind::NotFound => Ok(None),
        Err(_) => Err(ShelfFault::Failed),
    }
}

// The places of each device, where the files have one length and it is a number of places.
fn places_of<F: OpenFile>(files: &[DeviceFile<F>]) -> Option<u32> {
    let mut all = None;
    for file in files {
        let Ok(length) = file.length() else {
            return None;
        };
        if all.is_some_and(|other| other != length) {
            return None;
        }
        all = Some(length);
    }
    let length = all?;
    if length % PLACE != 0 {
        return None;
    }
    u32::try_from(length / PLACE).ok()
}

// The disk set in NAME.0, NAME.1 and so on, without a gap.
fn open_set<R: Files>(
    alloc: Global,
    files: &R,
    name: &Name,
) -> Result<FileDisks<R::File>, ShelfFault>
    ensures present { IsErrOf result ShelfFault.Present → ⊥ }
    ensures fresh { IfOk result (λ disks. disks.faults ≡ 0) }
{
    let mut found = Vec::new(alloc);
    for device in 0..MOST_DEVICES {
        match open_device(alloc, files, name, device)? {
            Some(file) => found
                .push(DeviceFile::new(file))
                .map_err(|_| ShelfFault::NoMemory)?,
            None => break,
        }
    }
    if found.is_empty() {
        return Err(ShelfFault::Missing);
    }
    let Some(places) = places_of(found.as_slice()) else {
        return Err(ShelfFault::Failed);
    };
    if sync_each(found.as_mut_slice()).is_err() {
        return Err(ShelfFault::Failed);
    }
    let devices = found.len() as u32;
    Ok(FileDisks::new(found, devices, places))
}

// A new file, which wasn't there.
fn create_device<R: Files>(
    alloc: Global,
    files: &R,
    name: &Name,
    device: u32,
) -> Result<R::File, ShelfFault>
    ensures present { IsErrOf result ShelfFault.Present → ⊥ }
    ensures missing { IsErrOf result ShelfFault.Missing → ⊥ }
{
    let path = path_of(alloc, name, device)?;
    OpenOptions::new()
        .read(true)
        .write(true)
        .create_new(true)
        .open(files, path.as_str())
        .map_err(|_| ShelfFault::Failed)
}

// Removes the files of so many devices, as far as that is possible.
fn remove_devices<R: Files>(alloc: Global, files: &R, name: &Name, devices: u32) {
    for device in 0..devices {
        if let Ok(path) = path_of(alloc, name, device) {
            let _ = files.remove_file(path.as_str());
        }
    }
}

// Makes the files to durable zero bytes.
fn fill_each<F: OpenFile>(made: &mut [DeviceFile<F>], places: u32) -> io::Result<()> {
    for file in made.iter_mut() {
        file.resize(places)?;
    }
    sync_each(made)
}

// Makes the file of each device, and keeps those that were made.
fn create_each<R: Files>(
    alloc: Global,
    files: &R,
    name: &Name,
    devices: u32,
    made: &mut Vec<DeviceFile<R::File>>,
) -> Result<(), ShelfFault>
    requires { vec_len made.old ≡ 0 }
    ensures present { IsErrOf result ShelfFault.Present → ⊥ }
    ensures missing { IsErrOf result ShelfFault.Missing → ⊥ }
    ensures most { vec_len made.new ≤ devices }
    ensures each { OnOk result (vec_len made.new ≡ devices) }
{
    for device in 0..devices {
        made.reserve(1).map_err(|_| ShelfFault::NoMemory)?;
        let file = create_device(alloc, files, name, device)?;
        made.push(DeviceFile::new(file))
            .map_err(|_| ShelfFault::NoMemory)?;
    }
    Ok(())
}

// Makes a disk set where no file of its devices, or of the one after them, is there. What was made of it on an error
// is removed.
fn make_set<R: Files>(
    alloc: Global,
    files: &R,
    name: &Name,
    devices: u32,
    places: u32,
) -> Result<FileDisks<R::File>, ShelfFault>
    ensures present { IsErrOf result ShelfFault.Present → ⊥ }
    ensures missing { IsErrOf result ShelfFault.Missing → ⊥ }
    ensures fresh { IfOk result (λ disks. disks.faults ≡ 0) }
    ensures devices { IfOk result (λ disks. disks.devices ≡ devices) }
    ensures places { IfOk result (λ disks. disks.places ≡ places) }
{
    if open_device(alloc, files, name, devices)?.is_some() {
        return Err(ShelfFault::Failed);
    }
    let mut made = Vec::new(alloc);
    let mut done = create_each(alloc, files, name, devices, &mut made);
    if done.is_ok() && fill_each(made.as_mut_slice(), places).is_err() {
        done = Err(ShelfFault::Failed);
    }
    match done {
        Ok(()) => Ok(FileDisks::new(made, devices, places)),
        Err(fault) => {
            let count = made.len() as u32;
            drop(made);
            remove_devices(alloc, files, name, count);
            Err(fault)
        }
    }
}

impl<F: FileExt + OpenFile + Drop + Send, R: Files<File = F> + Drop> Shelf for FileShelf<R> {
    type Disk = FileDisks<F>;

    ghost stock = { λ _. record { told = false; here = λ _. false; out = λ _. false; gives = [] } };

    ghost faults = { λ shelf. shelf.faults };

    fn take(&mut self, name: &Name) -> Result<FileDisks<F>, ShelfFault> {
        let taken = open_set(self.alloc, &self.files, name);
        self.counted(taken)
    }

    fn make(&mut self, name: &Name, devices: u32, places: u32) -> Result<FileDisks<F>, ShelfFault> {
        let made = make_set(self.alloc, &self.files, name, devices, places);
        self.counted(made)
    }

    fn give(&mut self, _name: &Name, disk: FileDisks<F>) -> Result<(), Failed> {
        if disk.faults() > 0 {
            self.faults = self.faults.saturating_add(1);
        }
        Ok(())
    }
}
