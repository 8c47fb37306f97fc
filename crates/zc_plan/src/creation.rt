// The plan of a creation.
ghost use Rattle.std.specs.Prelude.{◌≡◌, ◌+◌, ◌^◌, ◌≤◌, ◌∷◌, ◌++◌, [], map, if◌then◌else◌, IfOk, OnOk};
ghost use Rattle.zc_layout.specs.Creation.{clearing_calls, zeroing_calls, creation_calls};
ghost use Rattle.zc_num.specs.Words.{each};
ghost use Rattle.zc_plan.specs.Puts.{puts_of, HasRoom};
ghost use Rattle.zc_root.specs.Root.{closed};
ghost use Rattle.zc_tape.specs.DiskCall.{call_of, AreThere};
ghost use Rattle.zc_tape.specs.Tape.{Shape, Write, Sync};

use crate::calls::{push_closing, push_group, push_sync, push_zeros};
use crate::input::CreationPlan;
use std::alloc::Global;
use zc_num::NoMemory;
use zc_tape::{DiskCall, Plan};

// A sync, where it is wanted.
fn push_sync_where(calls: &mut Vec<DiskCall>, wanted: bool) -> Result<(), NoMemory>
    ensures { OnOk result (map call_of calls.new.items ≡ map call_of calls.old.items ++ (if wanted then Sync ∷ [] else [])) }
{
    if wanted { push_sync(calls) } else { Ok(()) }
}

// Zeros to each gate that is open, and a sync where there is one.
fn push_clearing(
    alloc: Global,
    calls: &mut Vec<DiskCall>,
    first_open: bool,
    second_open: bool,
) -> Result<(), NoMemory>
    ensures { OnOk result (map call_of calls.new.items ≡ map call_of calls.old.items ++ clearing_calls first_open second_open) }
{
    push_closing(alloc, calls, 0, first_open)?;
    push_closing(alloc, calls, 1, second_open)?;
    push_sync_where(calls, first_open || second_open)
}

// Zeros to so many places after the roots.
#[tactic(auto, using(crate::proofs::CallLaws::log_pushed))]
fn push_logs(alloc: Global, calls: &mut Vec<DiskCall>, logs: u32) -> Result<(), NoMemory>
    requires { 4 + logs ≤ 2 ^ 32 }
    ensures { OnOk result (map call_of calls.new.items ≡ map call_of calls.old.items ++ each logs (λ k. Write 0 (4 + k) closed)) }
{
    for k in 0..logs {
        push_zeros(alloc, calls, 4 + k)?;
    }
    Ok(())
}

// Zeros to both bodies and to the logs, and a sync.
fn push_zeroing(alloc: Global, calls: &mut Vec<DiskCall>, logs: u32) -> Result<(), NoMemory>
    requires { 4 + logs ≤ 2 ^ 32 }
    ensures { OnOk result (map call_of calls.new.items ≡ map call_of calls.old.items ++ zeroing_calls logs) }
{
    push_zeros(alloc, calls, 0)?;
    push_zeros(alloc, calls, 2)?;
    push_logs(alloc, calls, logs)?;
    push_sync(calls)
}

/// The calls that make a pool, in their order: zeros to each gate that is open, and a sync where there is one; zeros to both bodies
/// and to the logs; a sync; the first group.
///
/// # Errors
/// Want of memory.
pub fn plan_creation(alloc: Global, input: &CreationPlan) -> Result<Plan, NoMemory>
    requires { 4 + input.now.logs ≤ 2 ^ 32 }
    ensures calls { IfOk result (λ plan. map call_of plan.calls.items
        ≡ creation_calls input.now.first_open input.now.second_open input.now.logs (puts_of input.now.chain) input.now.body) }

    // Each write is to a place that a disk set with the places of the logs and of the input has.
    ensures there { IfOk result (λ plan. (shape : Shape) → HasRoom shape input.now.logs (puts_of input.now.chain)
        → AreThere shape (map call_of plan.calls.items)) }
{
    let mut calls = Vec::new(alloc);
    push_clearing(alloc, &mut calls, input.first_open, input.second_open)?;
    push_zeroing(alloc, &mut calls, input.logs)?;
    push_group(
        alloc,
        &mut calls,
        &[],
        input.chain.as_slice(),
        &input.body,
        false,
    )?;
    Ok(Plan { calls })
}
