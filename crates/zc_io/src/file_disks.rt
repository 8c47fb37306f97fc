// A disk set in files, one a device.
ghost use Rattle.std.specs.Prelude.{◌≡◌, ℕ, ◌^◌, ◌+◌, ◌-◌, ◌≤◌, false, [], OnErr, IfOk, min, is_ok};
ghost use Rattle.std.specs.Vec.{vec_len};
ghost use Rattle.zc_tape.specs.Cause.{Rose, HasCause};
ghost use Rattle.zc_tape.specs.Tape.{Shape, Tape};

use crate::device_file::{DeviceFile, sync_each};
use std::alloc::AllocError;
use std::fs::OpenFile;
use std::os::unix::fs::FileExt;
use zc_tape::{DiskSet, Failed};

/// Place p of device k is place p of file k. What its bytes are is told to nobody.
#[derive(Drop)]
pub struct FileDisks<F> {
    files: Vec<DeviceFile<F>>,
    devices: u32,
    places: u32,
    faults: u64,
    ghost each: { vec_len files ≡ devices },
}

impl<F> FileDisks<F> {
    pub(crate) fn new(files: Vec<DeviceFile<F>>, devices: u32, places: u32) -> FileDisks<F>
        requires { vec_len files ≡ devices }
        ensures devices { result.devices ≡ devices }
        ensures places { result.places ≡ places }
        ensures faults { result.faults ≡ 0 }
    {
        FileDisks {
            files,
            devices,
            places,
            faults: 0,
        }
    }

    pub(crate) fn faults(&self) -> u64
        ensures { result ≡ self.now.faults }
    {
        self.faults
    }

    // Counts a call that failed.
    fn counted<E: Drop>(&mut self, done: Result<(), E>) -> Result<(), Failed>
        ensures answer { is_ok result ≡ is_ok done }
        ensures cause { HasCause self.old.faults self.new.faults result }
        ensures devices { self.new.devices ≡ self.old.devices }
        ensures places { self.new.places ≡ self.old.places }
    {
        match done {
            Ok(()) => Ok(()),
            Err(_) => {
                self.faults = self.faults.saturating_add(1);
                Err(Failed)
            }
        }
    }
}

impl<F: FileExt + OpenFile + Drop> DiskSet for FileDisks<F> {
    ghost shape = { λ disks. record { devices = disks.devices; places = disks.places } };

    ghost faults = { λ disks. disks.faults };

    ghost spare = { λ _. 2 ^ 64 };

    ghost tape = { λ _. record { told = false; start = λ _ _. []; calls = [] } };

    fn devices(&self) -> u32 {
        self.devices
    }

    fn places(&self) -> u32 {
        self.places
    }

    fn read(&mut self, device: u32, place: u32, out: &mut [u8; 4096]) -> Result<(), Failed> {
        let done = self.files[device as usize].read(place, out);
        self.counted(done)
    }

    fn write(&mut self, device: u32, place: u32, bytes: &[u8; 4096]) -> Result<(), Failed> {
        let done = self.files[device as usize].write(place, bytes);
        self.counted(done)
    }

    fn sync(&mut self) -> Result<(), Failed> {
        let done = sync_each(self.files.as_mut_slice());
        self.counted(done)
    }

    fn ready(&mut self, calls: u64) -> Result<(), AllocError> {
        let _ = calls;
        Ok(())
    }
}
