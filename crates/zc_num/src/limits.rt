ghost use Rattle.std.specs.Prelude.{◌≡◌, ◌<◌, ◌↔◌, IsTrue, IsSome, IfSome};
ghost use Rattle.zc_num.specs.Limits.{AreLimits, total_of, files_of, pointers_of, file_bytes_of, log_places_of, log_start_of, data_places_of, IsFixed, is_fixed, is_log};

/// The size of a pool, and what it limits.
///
/// A pool has 1 to 4 devices of equally many places, a multiple of 128, and 1,024 to 131,072 places in all. A place holds one
/// block of 4,096 bytes.
#[derive(Clone, Copy, PartialEq, Eq, Debug)]
pub struct Limits {
    pub devices: u32,
    /// The places of each device.
    pub places: u32,
    ghost are_limits: { AreLimits devices places },
}

impl Limits {
    /// The limits of a pool of so many devices, with so many places each; `None` where no pool has that size.
    pub fn of(devices: u32, places: u32) -> Option<Limits>
        ensures variant { IsSome result ↔ AreLimits devices places }
        ensures value { IfSome result (λ limits. (limits.devices ≡ devices) × (limits.places ≡ places)) }
    {
        let total = u64::from(devices) * u64::from(places);
        if devices < 1 || 4 < devices || places % 128 != 0 || total < 1024 || 131072 < total {
            return None;
        }
        Some(Limits { devices, places })
    }

    /// The number of devices.
    pub fn devices(&self) -> u32
        ensures { result ≡ self.now.devices }
    {
        self.devices
    }

    /// The places of each device.
    pub fn places(&self) -> u32
        ensures { result ≡ self.now.places }
    {
        self.places
    }

    /// The places of all devices.
    pub fn total(&self) -> u32
        ensures { result ≡ total_of self.now.devices self.now.places }
    {
        self.devices * self.places
    }

    /// The most files that a dataset holds.
    pub fn files(&self) -> u32
        ensures { result ≡ files_of self.now.devices self.now.places }
    {
        self.total() / 128
    }

    /// The most pointers that a dataset holds, holes not counted.
    pub fn pointers(&self) -> u32
        ensures { result ≡ pointers_of self.now.devices self.now.places }
    {
        self.total() / 2
    }

    /// The most bytes that a file has.
    pub fn file_bytes(&self) -> u64
        ensures { result ≡ file_bytes_of self.now.devices self.now.places }
    {
        u64::from(self.pointers()) * 4096
    }

    /// The places of one log area. There are eight, one for each dataset.
    pub fn log_places(&self) -> u32
        ensures { result ≡ log_places_of self.now.devices self.now.places }
    {
        self.total() / 128
    }

    /// The first place of the log area of a dataset's slot, on device 0.
    pub fn log_start(&self, slot: u32) -> u32
        requires { slot < 8 }
        ensures { result ≡ log_start_of self.now.devices self.now.places slot }
    {
        4 + slot * self.log_places()
    }

    /// The places that data may take: neither the quarter that is kept for the catalogue, nor the log areas, nor the roots.
    pub fn data_places(&self) -> u32
        ensures { result ≡ data_places_of self.now.devices self.now.places }
    {
        let total = self.total();
        total - total / 4 - 8 * (total / 128) - 4
    }

    /// Whether this is a place of a root or of a log area, which never holds another block.
    pub fn is_fixed(&self, device: u32, place: u32) -> bool
        ensures fixed { IsTrue result ↔ IsFixed self.now.devices self.now.places device place }
        ensures test { result ≡ is_fixed self.now.devices self.now.places device place }
    {
        device == 0 && place < 4 + 8 * self.log_places()
    }

    /// Whether this is a place of a log area.
    pub fn is_log_place(&self, device: u32, place: u32) -> bool
        ensures { result ≡ is_log self.now.devices self.now.places device place }
    {
        device == 0 && 4 <= place && place < 4 + 8 * self.log_places()
    }
}
