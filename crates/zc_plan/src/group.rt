// The plan of a group.
ghost use Rattle.std.specs.Prelude.{◌≡◌, [], map, IfOk};
ghost use Rattle.zc_layout.specs.Standing.{group_calls};
ghost use Rattle.zc_plan.specs.Puts.{puts_of_group, HasRoom};
ghost use Rattle.zc_tape.specs.DiskCall.{call_of, AreThere};
ghost use Rattle.zc_tape.specs.Tape.{Shape};

use crate::calls::push_group;
use crate::input::GroupPlan;
use std::alloc::Global;
use zc_num::NoMemory;
use zc_tape::Plan;

/// The calls of a group, in their order: its blocks, its catalogue, and the closed gate where the gate of its slot is open; a sync;
/// the body; a sync; the open gate; a sync.
///
/// # Errors
/// Want of memory.
pub fn plan_group(alloc: Global, input: &GroupPlan) -> Result<Plan, NoMemory>
    ensures calls { IfOk result (λ plan. map call_of plan.calls.items
        ≡ group_calls (puts_of_group input.now) input.now.body input.now.gate_open) }

    // Each write is to a place that a disk set with the places of the input has.
    ensures there { IfOk result (λ plan. (shape : Shape) → HasRoom shape 0 (puts_of_group input.now)
        → AreThere shape (map call_of plan.calls.items)) }
{
    let mut calls = Vec::new(alloc);
    push_group(
        alloc,
        &mut calls,
        input.blocks.as_slice(),
        input.chain.as_slice(),
        &input.body,
        input.gate_open,
    )?;
    Ok(Plan { calls })
}
