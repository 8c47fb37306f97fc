// The state of a place.
ghost use Rattle.std.specs.Prelude.{◌≡◌};
ghost use Rattle.zc_spacemap.specs.States.{is_free, is_given, state_of};

/// What a place of a device is.
#[derive(Clone, Copy, PartialEq, Eq, Debug)]
pub enum PlaceState {
    /// Nothing is there.
    Free,
    /// A block is there.
    Allocated,
    /// A block is there, and the place is free once the map is settled.
    Given,
}

impl PlaceState {
    /// Whether the place is free.
    pub(crate) fn is_free(self) -> bool
        ensures { result ≡ is_free self }
    {
        match self {
            PlaceState::Free => true,
            PlaceState::Allocated | PlaceState::Given => false,
        }
    }

    /// Whether the place is given.
    pub(crate) fn is_given(self) -> bool
        ensures { result ≡ is_given self }
    {
        match self {
            PlaceState::Given => true,
            PlaceState::Free | PlaceState::Allocated => false,
        }
    }

    /// The state of a place of which a stored map says whether it is allocated.
    pub(crate) fn stored(allocated: bool) -> PlaceState
        ensures { result ≡ state_of allocated }
    {
        if allocated {
            PlaceState::Allocated
        } else {
            PlaceState::Free
        }
    }
}
