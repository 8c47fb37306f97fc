// Calls, pushed one after the other.
ghost use Rattle.std.specs.Prelude.{◌≡◌, ◌∷◌, ◌++◌, [], map, OnOk};
ghost use Rattle.zc_layout.specs.Standing.{write_of, closing, group_calls};
ghost use Rattle.zc_plan.specs.Puts.{put_of, puts_of};
ghost use Rattle.zc_root.specs.Body.{body_bytes as bytes_of_body};
ghost use Rattle.zc_root.specs.Root.{slot_of, body_place, gate_place, opened, closed};
ghost use Rattle.zc_tape.specs.DiskCall.{call_of};
ghost use Rattle.zc_tape.specs.Tape.{Write, Sync};

use crate::input::PlacedBlock;
use std::alloc::Global;
use zc_num::{Boxed, NoMemory};
use zc_root::{Body, body_bytes, gate_bytes, slot_of};
use zc_tape::DiskCall;

// A write.
fn push_write(
    calls: &mut Vec<DiskCall>,
    device: u32,
    place: u32,
    bytes: Boxed<[u8; 4096]>,
) -> Result<(), NoMemory>
    ensures { OnOk result (map call_of calls.new.items ≡ map call_of calls.old.items ++ Write device place bytes ∷ []) }
{
    calls.push(DiskCall::Write {
        device,
        place,
        bytes,
    })?;
    Ok(())
}

/// A sync.
pub(crate) fn push_sync(calls: &mut Vec<DiskCall>) -> Result<(), NoMemory>
    ensures { OnOk result (map call_of calls.new.items ≡ map call_of calls.old.items ++ Sync ∷ []) }
{
    calls.push(DiskCall::Sync)?;
    Ok(())
}

/// The write of zeros to a place of device 0.
pub(crate) fn push_zeros(
    alloc: Global,
    calls: &mut Vec<DiskCall>,
    place: u32,
) -> Result<(), NoMemory>
    ensures { OnOk result (map call_of calls.new.items ≡ map call_of calls.old.items ++ Write 0 place closed ∷ []) }
{
    let bytes = Boxed::new(alloc, gate_bytes(false))?;
    push_write(calls, 0, place, bytes)
}

/// The write that closes the gate of a group's slot, where it is open.
pub(crate) fn push_closing(
    alloc: Global,
    calls: &mut Vec<DiskCall>,
    group: u64,
    gate_open: bool,
) -> Result<(), NoMemory>
    ensures { OnOk result (map call_of calls.new.items ≡ map call_of calls.old.items ++ closing group gate_open) }
{
    if gate_open {
        push_zeros(alloc, calls, 2 * slot_of(group) + 1)
    } else {
        Ok(())
    }
}

// The write that opens the gate of a group's slot.
fn push_opening(alloc: Global, calls: &mut Vec<DiskCall>, group: u64) -> Result<(), NoMemory>
    ensures { OnOk result (map call_of calls.new.items
        ≡ map call_of calls.old.items ++ Write 0 (gate_place (slot_of group)) opened ∷ []) }
{
    let bytes = Boxed::new(alloc, gate_bytes(true))?;
    push_write(calls, 0, 2 * slot_of(group) + 1, bytes)
}

// The write of a body.
fn push_body(alloc: Global, calls: &mut Vec<DiskCall>, body: &Body) -> Result<(), NoMemory>
    ensures { OnOk result (map call_of calls.new.items
        ≡ map call_of calls.old.items ++ Write 0 (body_place (slot_of body.now.group)) (bytes_of_body body.now) ∷ []) }
{
    let mut bytes = gate_bytes(false);
    body_bytes(body, &mut bytes);
    let bytes = Boxed::new(alloc, bytes)?;
    push_write(calls, 0, 2 * slot_of(body.group), bytes)
}

// The write of a block, whose bytes are copied here and nowhere else.
fn push_block(alloc: Global, calls: &mut Vec<DiskCall>, block: &PlacedBlock) -> Result<(), NoMemory>
    ensures { OnOk result (map call_of calls.new.items ≡ map call_of calls.old.items ++ write_of (put_of block.now) ∷ []) }
{
    let bytes = Boxed::new(alloc, *block.bytes.get())?;
    push_write(calls, block.device, block.place, bytes)
}

// The writes of blocks, in order.
#[tactic(auto, using(crate::proofs::CallLaws::block_pushed))]
fn push_blocks(
    alloc: Global,
    calls: &mut Vec<DiskCall>,
    blocks: &[PlacedBlock],
) -> Result<(), NoMemory>
    ensures { OnOk result (map call_of calls.new.items ≡ map call_of calls.old.items ++ map write_of (puts_of blocks.now)) }
{
    for block in blocks {
        push_block(alloc, calls, block)?;
    }
    Ok(())
}

// A sync, the body, a sync, the open gate, a sync.
fn push_root(alloc: Global, calls: &mut Vec<DiskCall>, body: &Body) -> Result<(), NoMemory>
    ensures { OnOk result (map call_of calls.new.items ≡ map call_of calls.old.items
        ++ (Sync ∷ (Write 0 (body_place (slot_of body.now.group)) (bytes_of_body body.now)
        ∷ (Sync ∷ (Write 0 (gate_place (slot_of body.now.group)) opened ∷ (Sync ∷ [])))))) }
{
    push_sync(calls)?;
    push_body(alloc, calls, body)?;
    push_sync(calls)?;
    push_opening(alloc, calls, body.group)?;
    push_sync(calls)
}

/// The calls of a group.
#[tactic(auto, using(crate::proofs::CallLaws::group_pushed))]
pub(crate) fn push_group(
    alloc: Global,
    calls: &mut Vec<DiskCall>,
    blocks: &[PlacedBlock],
    chain: &[PlacedBlock],
    body: &Body,
    gate_open: bool,
) -> Result<(), NoMemory>
    ensures { OnOk result (map call_of calls.new.items
        ≡ map call_of calls.old.items ++ group_calls (puts_of blocks.now ++ puts_of chain.now) body.now gate_open) }
{
    push_blocks(alloc, calls, blocks)?;
    push_blocks(alloc, calls, chain)?;
    push_closing(alloc, calls, body.group, gate_open)?;
    push_root(alloc, calls, body)
}
