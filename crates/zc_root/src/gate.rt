// The bytes of a gate.
ghost use Rattle.std.specs.Prelude.{◌≡◌, ◌↔◌, IsTrue};
ghost use Rattle.zc_root.specs.Root.{gate_of, opened as opened_bytes, closed as closed_bytes};

/// The bytes that a gate is opened with, or closed with.
pub fn gate_bytes(opened: bool) -> [u8; 4096]
    ensures { result ≡ gate_of opened }
{
    if opened { open_gate() } else { closed_gate() }
}

/// Whether a gate with these bytes is open.
pub(crate) fn is_opened(block: &[u8; 4096]) -> bool
    ensures { IsTrue result ↔ (block.now ≡ opened_bytes) }
{
    is_same(block, &open_gate())
}

/// Whether two blocks have the same bytes.
pub(crate) fn is_same(left: &[u8; 4096], right: &[u8; 4096]) -> bool
    ensures { IsTrue result ↔ (left.now ≡ right.now) }
{
    left == right
}

/// A block of zeros, as of a gate that is closed.
#[tactic(auto, unfolding(crate::specs::Root::closed))]
pub(crate) fn closed_gate() -> [u8; 4096]
    ensures { result ≡ closed_bytes }
{
    [0u8; 4096]
}

// The bytes of a gate that is open.
#[tactic(auto, unfolding(crate::specs::Root::opened))]
fn open_gate() -> [u8; 4096]
    ensures { result ≡ opened_bytes }
{
    [0xA5u8; 4096]
}
