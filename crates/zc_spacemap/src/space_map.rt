// What the store asks of a map of the places of one device.
ghost use Rattle.std.specs.Prelude.{◌≡◌, ℕ, ◌+◌, ◌<◌, ◌≤◌, ◌↔◌, false, List, map, length, count_by, slice_get, slice_set, IsTrue, IsNone, IsOk, IfSome, IfNone, OnOk, OnErr};
ghost use Rattle.zc_spacemap.specs.declared.state.PlaceState.{PlaceState};
ghost use Rattle.zc_spacemap.specs.declared.state.PlaceState.TheVariants.{Free, Allocated, Given};
ghost use Rattle.zc_spacemap.specs.States.{is_free, settled};

use zc_num::NoMemory;

/// The places of one device, counted from 0, and which of them are in use.
pub trait SpaceMap {
    /// The state of each place. No call changes how many there are.
    ghost states: { Self → List PlaceState };

    /// How many more takes and gives have their room.
    ghost spare: { Self → ℕ };

    /// Allocates a free place, where one is left. The search for it begins at `rotor`, which may lie past the end; which place it
    /// finds is not promised. It takes no memory.
    fn take(&mut self, rotor: u32) -> Option<u32>
        requires { 0 < spare self.old }
        ensures taken { IfSome result (λ place. (slice_get (states self.old) place ≡ Some Free)
            × (states self.new ≡ slice_set (states self.old) place Allocated)) }
        ensures none { IsNone result ↔ (count_by is_free (states self.old) ≡ 0) }
        ensures unchanged { IfNone result (states self.new ≡ states self.old) }
        ensures spare { spare self.old ≤ spare self.new + 1 };

    /// Gives an allocated place, which is free once the map is settled. It stays allocated until then.
    ///
    /// # Errors
    /// Want of memory, where no room is left; nothing has changed then.
    fn give_later(&mut self, place: u32) -> Result<(), NoMemory>
        requires { slice_get (states self.old) place ≡ Some Allocated }
        ensures given { OnOk result (states self.new ≡ slice_set (states self.old) place Given) }
        ensures err { OnErr result (states self.new ≡ states self.old) }
        ensures in_room { 0 < spare self.old → IsOk result }
        ensures spare { spare self.old ≤ spare self.new + 1 };

    /// Frees the given places. It takes no memory.
    fn settle(&mut self)
        ensures settled { states self.new ≡ map settled (states self.old) }
        ensures spare { spare self.old ≤ spare self.new };

    /// How many places are free.
    fn free_count(&self) -> u32
        ensures { result ≡ count_by is_free (states self.now) };

    /// Whether the place is allocated, given or not.
    fn is_allocated(&self, place: u32) -> bool
        requires { place < length (states self.now) }
        ensures { (result ≡ false) ↔ (slice_get (states self.now) place ≡ Some Free) };

    /// Whether the place is given.
    fn is_given(&self, place: u32) -> bool
        requires { place < length (states self.now) }
        ensures { IsTrue result ↔ (slice_get (states self.now) place ≡ Some Given) };

    /// Makes room for that many takes and gives.
    ///
    /// # Errors
    /// Want of memory; the room is then what it was, or more.
    fn reserve(&mut self, places: u32) -> Result<(), NoMemory>
        ensures room { OnOk result (places ≤ spare self.new) }
        ensures states { states self.new ≡ states self.old }
        ensures spare { spare self.old ≤ spare self.new };
}
