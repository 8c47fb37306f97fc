// The file of a device, and whether a sync of it is due.
ghost use Rattle.std.specs.Prelude.{◌≡◌, true, false, OnOk, OnErr};

use std::fs::OpenFile;
use std::io;
use std::os::unix::fs::FileExt;

/// The bytes of a place.
pub(crate) const PLACE: u64 = 4096;

/// Place p is the bytes from 4,096 · p on.
#[derive(Drop)]
pub struct DeviceFile<F> {
    file: F,
    // Whether it may hold bytes that no sync has made durable.
    unsynced: bool,
}

impl<F> DeviceFile<F> {
    /// A file that was just opened, of which nobody knows what is durable.
    pub(crate) fn new(file: F) -> DeviceFile<F>
        ensures { result.unsynced ≡ true }
    {
        DeviceFile {
            file,
            unsynced: true,
        }
    }
}

impl<F: OpenFile> DeviceFile<F> {
    /// The number of its bytes.
    pub(crate) fn length(&self) -> io::Result<u64> {
        Ok(self.file.metadata()?.len())
    }

    /// Makes it so many places long. Those that are added hold zero bytes.
    pub(crate) fn resize(&mut self, places: u32) -> io::Result<()>
        ensures { self.new.unsynced ≡ true }
    {
        self.unsynced = true;
        self.file.set_len(u64::from(places) * PLACE)
    }

    /// Makes its bytes durable, with no call of the system where they are.
    pub(crate) fn sync(&mut self) -> io::Result<()>
        ensures synced { OnOk result (self.new.unsynced ≡ false) }
        ensures due { OnErr result (self.old.unsynced ≡ true) }
        ensures same { OnErr result (self.new ≡ self.old) }
    {
        if self.unsynced {
            self.file.sync_all()?;
            self.unsynced = false;
        }
        Ok(())
    }
}

impl<F: FileExt> DeviceFile<F> {
    /// Reads a place.
    pub(crate) fn read(&self, place: u32, out: &mut [u8; 4096]) -> io::Result<()> {
        self.file.read_exact_at(out, u64::from(place) * PLACE)
    }

    /// Writes a place. A write that fails may have changed some of it, so a sync is due after that too.
    pub(crate) fn write(&mut self, place: u32, bytes: &[u8; 4096]) -> io::Result<()>
        ensures { self.new.unsynced ≡ true }
    {
        self.unsynced = true;
        self.file.write_all_at(bytes, u64::from(place) * PLACE)
    }
}

/// Syncs one file after the other, up to the first that fails.
pub(crate) fn sync_each<F: OpenFile>(files: &mut [DeviceFile<F>]) -> io::Result<()> {
    for file in files.iter_mut() {
        file.sync()?;
    }
    Ok(())
}

#[cfg(test)]
mod tests {
    use super::*;
    use std::fs::Metadata;
    use std::io::ErrorKind;

    // A file of which every call fails.
    #[derive(Drop)]
    struct Broken;

    impl OpenFile for Broken {
        fn metadata(&self) -> io::Result<Metadata> {
            Err(io::Error::from(ErrorKind::Other))
        }

        fn set_len(&self, _size: u64) -> io::Result<()> {
            Err(io::Error::from(ErrorKind::Other))
        }

        fn sync_all(&self) -> io::Result<()> {
            Err(io::Error::from(ErrorKind::Other))
        }

        fn sync_data(&self) -> io::Result<()> {
            Err(io::Error::from(ErrorKind::Other))
        }
    }

    impl FileExt for Broken {
        fn read_at(&self, _buf: &mut [u8], _offset: u64) -> io::Result<usize> {
            Err(io::Error::from(ErrorKind::Other))
        }

        fn write_at(&self, _buf: &[u8], _offset: u64) -> io::Result<usize> {
            Err(io::Error::from(ErrorKind::Other))
        }
    }

    #[test]
    fn a_file_is_synced_where_a_sync_is_due(rt: HostRuntime) {
        let mut file = DeviceFile::new(Broken);
        assert!(rt; file.sync().is_err());
        file.unsynced = false;
        assert!(rt; file.sync().is_ok());
        assert!(rt; file.write(0, &[0; 4096]).is_err());
        assert!(rt; file.sync().is_err());
        assert!(rt; file.sync().is_err());
    }
}
