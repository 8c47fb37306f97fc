// Which places of one device are in use.
//
// A place is free, allocated, or given: a given place is still allocated, and nobody takes it before the map is settled, for a
// crash may need its block until then. `take` and `settle` have no answer for want of memory: `reserve` makes their room.
//
// `BitMap` keeps one state a place, the number of those that are free, and the list of those that are given, so that `settle`
// goes over that list alone. On disk a map has one bit a place, as it will be once it is settled.
#![tactic(auto)]

mod bit_map;
mod reading;
mod space_map;
mod state;
mod stored;
mod writing;

pub use bit_map::BitMap;
pub use reading::{map_field, read_map};
pub use space_map::SpaceMap;
pub use state::PlaceState;
pub use stored::StoredMap;
pub use writing::put_map;
