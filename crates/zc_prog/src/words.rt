// The words that the program is called with.
ghost use Rattle.std.specs.Prelude.{◌≡◌, map, string_bytes, IfOk, IfSome};
ghost use Rattle.zc_num.specs.Limits.{AreLimits};
ghost use Rattle.zc_script.specs.Words.{number_of};
ghost use Rattle.zc_script.specs.Pools.{only_if};
ghost use Rattle.zc_prog.specs.Words.{are_limits, play_of, create_of, task_of, pool_of, HasLimits};

use std::alloc::Global;
use std::fmt;
use zc_num::{Limits, Name, NoMemory};
use zc_script::{is_pool_name, number_of};

/// What the words ask.
#[derive(Clone, PartialEq, Eq, Debug, Drop)]
pub enum Task {
    /// The script of the source is to be played on the pool.
    Play {
        pool: Name,
    },
    /// A pool of this size is to be made.
    Create {
        pool: Name,
        devices: u32,
        places: u32,
    },
}

/// The pool that a task names.
pub fn pool_of(task: &Task) -> &Name
    ensures { result.now ≡ pool_of task.now }
{
    match task {
        Task::Play { pool } => pool,
        Task::Create {
            pool,
            devices: _,
            places: _,
        } => pool,
    }
}

// The size, where a pool may have it.
#[tactic(auto, using(crate::proofs::WordLaws::size_found))]
fn size_in(devices: u32, places: u32) -> Option<(u32, u32)>
    ensures value { result ≡ only_if (are_limits devices places) (devices, places) }
    ensures limits { IfSome result (λ size. AreLimits size.0 size.1) }
{
    match Limits::of(devices, places) {
        Some(_) => Some((devices, places)),
        None => None,
    }
}

// The size that two numbers name, where a pool may have it.
#[tactic(auto, using(crate::proofs::WordLaws::too_many_devices, crate::proofs::WordLaws::too_many_places))]
fn size_of(devices: u64, places: u64) -> Option<(u32, u32)>
    ensures value { result ≡ only_if (are_limits devices places) (devices, places) }
    ensures limits { IfSome result (λ size. AreLimits size.0 size.1) }
{
    if devices > 4 {
        return None;
    }
    if places > 131_072 {
        return None;
    }
    size_in(devices as u32, places as u32)
}

// `play POOL`.
#[tactic(auto, unfolding(crate::specs::Words::play_of))]
fn play_of(alloc: Global, name: &[u8]) -> Result<Option<Task>, NoMemory>
    ensures value { IfOk result (λ task. task ≡ play_of name.now) }
    ensures limits { IfOk result (λ task. IfSome task HasLimits) }
{
    if is_pool_name(name) {
        Ok(Some(Task::Play {
            pool: Name::of(alloc, name)?,
        }))
    } else {
        Ok(None)
    }
}

// `create POOL DEVICES PLACES`.
#[tactic(auto, unfolding(crate::specs::Words::create_of))]
fn create_of(
    alloc: Global,
    name: &[u8],
    devices: &[u8],
    places: &[u8],
) -> Result<Option<Task>, NoMemory>
    ensures value { IfOk result (λ task. task ≡ create_of name.now devices.now places.now) }
    ensures limits { IfOk result (λ task. IfSome task HasLimits) }
{
    let Some(devices) = number_of(devices) else {
        return Ok(None);
    };
    let Some(places) = number_of(places) else {
        return Ok(None);
    };
    if !is_pool_name(name) {
        return Ok(None);
    }
    match size_of(devices, places) {
        Some((devices, places)) => Ok(Some(Task::Create {
            pool: Name::of(alloc, name)?,
            devices,
            places,
        })),
        None => Ok(None),
    }
}

/// What the words ask; `None` for any that the program doesn't know.
///
/// # Errors
/// Want of memory.
#[tactic(auto, unfolding(crate::specs::Words::task_of))]
pub fn task_of(alloc: Global, words: &[String]) -> Result<Option<Task>, NoMemory>
    ensures value { IfOk result (λ task. task ≡ task_of (map string_bytes words.now)) }
    ensures limits { IfOk result (λ task. IfSome task HasLimits) }
{
    match words {
        [word, name] => {
            if word.as_str() == "play" {
                play_of(alloc, name.as_bytes())
            } else {
                Ok(None)
            }
        }
        [word, name, devices, places] => {
            if word.as_str() == "create" {
                create_of(
                    alloc,
                    name.as_bytes(),
                    devices.as_bytes(),
                    places.as_bytes(),
                )
            } else {
                Ok(None)
            }
        }
        _ => Ok(None),
    }
}
