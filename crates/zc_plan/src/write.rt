// How the calls of a plan are made.
ghost use Rattle.std.specs.Prelude.{◌≡◌, ◌+◌, ◌≤◌, ℕ, Bool, List, length, map, drop, true, false, is_ok, IsTrue, OnOk, IfOk, IfErr, IsErrOf};
ghost use Rattle.zc_layout.specs.Layout.{Put};
ghost use Rattle.zc_layout.specs.Outcomes.{before_gate, before_first_gate, GroupLeaves, GroupIsMade, CreationLeaves, CreationIsMade};
ghost use Rattle.zc_layout.specs.Standing.{Standing};
ghost use Rattle.zc_plan.specs.Counted.{AllMade, AllButLast, IsFailed, made_before};
ghost use Rattle.zc_plan.specs.Start.{StartsGroup, StartsCreation, LeavesElsewhere};
ghost use Rattle.zc_tape.specs.Cause.{HasCause, Rose};
ghost use Rattle.zc_tape.specs.Crash.{May};
ghost use Rattle.zc_tape.specs.DiskCall.{call_of, AreThere};
ghost use Rattle.zc_tape.specs.Plays.{Played, Begun};

use zc_num::NoMemory;
use zc_tape::{DiskCall, DiskSet, Failed, Plan, perform_one};

/// Why the calls of a plan were not all made.
#[derive(Clone, Copy, Debug, PartialEq, Eq)]
pub enum WriteFault {
    /// No call was made.
    NoMemory,
    /// A call failed, and none after it was made.
    Failed {
        /// How many calls were made, the failed one too.
        made: u64,
    },
}

// Makes the calls of a plan, once there is room for all of them.
fn make<D: DiskSet>(disks: &mut D, plan: &Plan) -> Result<u64, WriteFault>
    requires there { AreThere (D.shape disks.old) (map call_of plan.now.calls.items) }
    ensures told { (D.tape disks.new).told ≡ (D.tape disks.old).told }
    ensures shape { D.shape disks.new ≡ D.shape disks.old }
    ensures ok { OnOk result (Played (D.tape disks.old) (map call_of plan.now.calls.items) (D.tape disks.new) true) }
    ensures failed { IfErr result (λ fault. IsFailed fault
        → Played (D.tape disks.old) (map call_of plan.now.calls.items) (D.tape disks.new) false) }
    ensures memory { IsErrOf result WriteFault.NoMemory → D.tape disks.new ≡ D.tape disks.old }
    ensures no_fault { IsErrOf result WriteFault.NoMemory → D.faults disks.new ≡ D.faults disks.old }
    ensures begun { IsTrue (D.tape disks.old).told → Begun (D.tape disks.old) (map call_of plan.now.calls.items) (D.tape disks.new) }
    ensures later { D.faults disks.old ≤ D.faults disks.new }
    ensures cause { IfErr result (λ fault. IsFailed fault → Rose (D.faults disks.old) (D.faults disks.new)) }
    ensures counted { IfOk result (λ made. IsTrue (D.tape disks.old).told
        → length (D.tape disks.new).calls ≡ length (D.tape disks.old).calls + made) }
    ensures counted_failed { IfErr result (λ fault. IsTrue (D.tape disks.old).told
        → length (D.tape disks.new).calls ≡ length (D.tape disks.old).calls + made_before fault) }
    ensures all_made { OnOk result (IsTrue (D.tape disks.old).told
        → AllMade (drop (length (D.tape disks.old).calls) (D.tape disks.new).calls)) }
    ensures first_failed { IfErr result (λ fault. IsFailed fault → IsTrue (D.tape disks.old).told
        → AllButLast (drop (length (D.tape disks.old).calls) (D.tape disks.new).calls)) }
{
    match disks.ready(plan.calls.len() as u64) {
        Ok(()) => match make_each(disks, plan.calls.as_slice()) {
            Ok(made) => Ok(made),
            Err(made) => Err(WriteFault::Failed { made }),
        },
        Err(NoMemory) => Err(WriteFault::NoMemory),
    }
}

// Makes calls in order, up to the first that fails, and counts those that were made, the failed one too.
#[tactic(auto, using(zc_tape::proofs::Performed::performed_more, zc_tape::proofs::Performed::performed_stopped, crate::proofs::CountLaws::one_more_counted))]
fn make_each<D: DiskSet>(disks: &mut D, calls: &[DiskCall]) -> Result<u64, u64>
    requires there { AreThere (D.shape disks.old) (map call_of calls.now) }
    requires room { length calls.now ≤ D.spare disks.old }
    ensures told { (D.tape disks.new).told ≡ (D.tape disks.old).told }
    ensures played { Played (D.tape disks.old) (map call_of calls.now) (D.tape disks.new) (is_ok result) }
    ensures shape { D.shape disks.new ≡ D.shape disks.old }
    ensures cause { HasCause (D.faults disks.old) (D.faults disks.new) result }
    ensures counted { IfOk result (λ made. IsTrue (D.tape disks.old).told
        → length (D.tape disks.new).calls ≡ length (D.tape disks.old).calls + made) }
    ensures counted_failed { IfErr result (λ made. IsTrue (D.tape disks.old).told
        → length (D.tape disks.new).calls ≡ length (D.tape disks.old).calls + made) }
{
    let mut made = 0u64;
    for call in calls {
        match perform_one(disks, call) {
            Ok(()) => made += 1,
            Err(Failed) => return Err(made + 1),
        }
    }
    Ok(made)
}

/// Makes the calls of a group, and tells how many it made.
///
/// # Errors
/// `Failed` where a call failed, with how many were made, that one too; and want of memory, before any call.
pub fn write_group<D: DiskSet>(disks: &mut D, plan: &Plan) -> Result<u64, WriteFault>
    requires there { AreThere (D.shape disks.old) (map call_of plan.now.calls.items) }
    ensures told { (D.tape disks.new).told ≡ (D.tape disks.old).told }
    ensures shape { D.shape disks.new ≡ D.shape disks.old }
    ensures ok { OnOk result (Played (D.tape disks.old) (map call_of plan.now.calls.items) (D.tape disks.new) true) }
    ensures failed { IfErr result (λ fault. IsFailed fault
        → Played (D.tape disks.old) (map call_of plan.now.calls.items) (D.tape disks.new) false) }
    ensures memory { IsErrOf result WriteFault.NoMemory → D.tape disks.new ≡ D.tape disks.old }
    ensures no_fault { IsErrOf result WriteFault.NoMemory → D.faults disks.new ≡ D.faults disks.old }
    ensures begun { IsTrue (D.tape disks.old).told → Begun (D.tape disks.old) (map call_of plan.now.calls.items) (D.tape disks.new) }

    // Whatever the answer, at every moment each image that a crash may leave stands for the old root, until the gate is being
    // opened for it alone, and then for the old or the new one.
    ensures any_moment { (old new : Standing) (puts : List Put) (gate_open : Bool)
        → StartsGroup (D.tape disks.old) (map call_of plan.now.calls.items) old new puts gate_open
        → GroupLeaves May (D.tape disks.old) (D.tape disks.new) old new
        (length (D.tape disks.old).calls + before_gate puts new.body gate_open) }

    // Nothing else is changed, the logs among it.
    ensures elsewhere { (old new : Standing) (puts : List Put) (gate_open : Bool)
        → StartsGroup (D.tape disks.old) (map call_of plan.now.calls.items) old new puts gate_open
        → LeavesElsewhere (D.tape disks.old) (D.tape disks.new) puts }

    // Once it is Ok, only the new root stands.
    ensures made { OnOk result ((old new : Standing) (puts : List Put) (gate_open : Bool)
        → StartsGroup (D.tape disks.old) (map call_of plan.now.calls.items) old new puts gate_open
        → GroupIsMade May (D.tape disks.new) new) }
    ensures later { D.faults disks.old ≤ D.faults disks.new }
    ensures cause { IfErr result (λ fault. IsFailed fault → Rose (D.faults disks.old) (D.faults disks.new)) }

    // So many calls were made, and all of them were Ok, or all but the last.
    ensures counted { IfOk result (λ made. IsTrue (D.tape disks.old).told
        → length (D.tape disks.new).calls ≡ length (D.tape disks.old).calls + made) }
    ensures counted_failed { IfErr result (λ fault. IsTrue (D.tape disks.old).told
        → length (D.tape disks.new).calls ≡ length (D.tape disks.old).calls + made_before fault) }
    ensures all_made { OnOk result (IsTrue (D.tape disks.old).told
        → AllMade (drop (length (D.tape disks.old).calls) (D.tape disks.new).calls)) }
    ensures first_failed { IfErr result (λ fault. IsFailed fault → IsTrue (D.tape disks.old).told
        → AllButLast (drop (length (D.tape disks.old).calls) (D.tape disks.new).calls)) }
{
    make(disks, plan)
}

/// Makes the calls of a creation, and tells how many it made.
///
/// # Errors
/// `Failed` where a call failed, with how many were made, that one too; and want of memory, before any call.
pub fn write_creation<D: DiskSet>(disks: &mut D, plan: &Plan) -> Result<u64, WriteFault>
    requires there { AreThere (D.shape disks.old) (map call_of plan.now.calls.items) }
    ensures told { (D.tape disks.new).told ≡ (D.tape disks.old).told }
    ensures shape { D.shape disks.new ≡ D.shape disks.old }
    ensures ok { OnOk result (Played (D.tape disks.old) (map call_of plan.now.calls.items) (D.tape disks.new) true) }
    ensures failed { IfErr result (λ fault. IsFailed fault
        → Played (D.tape disks.old) (map call_of plan.now.calls.items) (D.tape disks.new) false) }
    ensures memory { IsErrOf result WriteFault.NoMemory → D.tape disks.new ≡ D.tape disks.old }
    ensures no_fault { IsErrOf result WriteFault.NoMemory → D.faults disks.new ≡ D.faults disks.old }
    ensures begun { IsTrue (D.tape disks.old).told → Begun (D.tape disks.old) (map call_of plan.now.calls.items) (D.tape disks.new) }

    // Whatever the answer, at every moment each image that a crash may leave has no root, until the gate is being opened, and then
    // none or the first one over logs of zeros.
    ensures any_moment { (new : Standing) (puts : List Put) (first_open second_open : Bool) (logs : ℕ)
        → StartsCreation (D.tape disks.old) (map call_of plan.now.calls.items) new puts first_open second_open logs
        → CreationLeaves May (D.tape disks.old) (D.tape disks.new) logs new
        (length (D.tape disks.old).calls + before_first_gate first_open second_open logs puts new.body) }

    // Once it is Ok, only the first root stands, over logs of zeros.
    ensures made { OnOk result ((new : Standing) (puts : List Put) (first_open second_open : Bool) (logs : ℕ)
        → StartsCreation (D.tape disks.old) (map call_of plan.now.calls.items) new puts first_open second_open logs
        → CreationIsMade May (D.tape disks.new) logs new) }
    ensures later { D.faults disks.old ≤ D.faults disks.new }
    ensures cause { IfErr result (λ fault. IsFailed fault → Rose (D.faults disks.old) (D.faults disks.new)) }

    // So many calls were made, and all of them were Ok, or all but the last.
    ensures counted { IfOk result (λ made. IsTrue (D.tape disks.old).told
        → length (D.tape disks.new).calls ≡ length (D.tape disks.old).calls + made) }
    ensures counted_failed { IfErr result (λ fault. IsTrue (D.tape disks.old).told
        → length (D.tape disks.new).calls ≡ length (D.tape disks.old).calls + made_before fault) }
    ensures all_made { OnOk result (IsTrue (D.tape disks.old).told
        → AllMade (drop (length (D.tape disks.old).calls) (D.tape disks.new).calls)) }
    ensures first_failed { IfErr result (λ fault. IsFailed fault → IsTrue (D.tape disks.old).told
        → AllButLast (drop (length (D.tape disks.old).calls) (D.tape disks.new).calls)) }
{
    make(disks, plan)
}
