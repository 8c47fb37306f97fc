// What each command does.
//
// The tests come first and change nothing. What is then made takes its memory before the first change, or is taken back.
ghost use Rattle.std.specs.Prelude.{◌≡◌, ◌+◌, ◌-◌, ◌^◌, ◌<◌, ◌≤◌, true, IfOk, OnErr, IsSome, length};
ghost use Rattle.zc_command.specs.Names.{AreConditions};
ghost use Rattle.zc_plain.specs.IsPlain.{AreNextUpTo};
ghost use Rattle.zc_heart.specs.Core.{pool_of, IsCore};
ghost use Rattle.zc_heart.specs.Deeds as deeds;
ghost use Rattle.zc_heart.specs.Deeds.{IsLeft, Gives, file_on};
ghost use Rattle.zc_command.specs.declared.reply.Reply.TheVariants as reply;
ghost use Rattle.zc_heart.specs.Input.{input_bytes};
ghost use Rattle.zc_heart.specs.Meaning.{Replies, Commands, is_data};

use crate::dataset::{Spot, dataset_at, dataset_index, dataset_of, file_on, refuse_long, spot_of};
use crate::making::{add_dataset, add_file, drop_dataset, drop_file, put_bytes, set_size};
use crate::pool_core::Core;
use crate::reading::bytes_from;
use crate::room::{refuse_charge, refuse_end, room_in_file, unmade_touched, unmade_trimmed};
use crate::writing::Input;
use std::alloc::Global;
use zc_command::{Bad, Command, Refusal, Reply, What, Why};
use zc_num::{Name, NoMemory};

// The most datasets that a pool holds.
const MOST_DATASETS: u64 = 8;

// The most bytes that are read at once.
const MOST_READ: u64 = 65536;

/// What the command answers, which is the entry with the number in the pool's history.
///
/// # Errors
/// Want of memory; nothing has changed.
pub fn command(
    alloc: Global,
    core: &mut Core,
    number: u64,
    command: &Command,
) -> Result<Reply, NoMemory>
    requires core { IsCore core.old }
    requires conditions { AreConditions command.now }
    requires number { core.old.last < number }
    requires numbers { AreNextUpTo (2 ^ 64 - 2) (pool_of core.old) }
    ensures reply { Replies number command.now core.old core.new result }
    ensures kept { Commands core.old core.new }
    ensures last { core.new.last ≤ number }
    ensures bytes { IfOk result (λ reply. is_data reply ≡ true → core.new ≡ core.old) }
    ensures core { IsCore core.new }
{
    answer(alloc, core, number, command)
}

// The answer to a command: names first.
#[tactic(auto, unfolding(crate::specs::Deeds::answer))]
fn answer(alloc: Global, core: &mut Core, number: u64, command: &Command) -> Result<Reply, NoMemory>
    requires core { IsCore core.old }
    requires conditions { AreConditions command.now }
    requires number { core.old.last < number }
    requires numbers { AreNextUpTo (2 ^ 64 - 2) (pool_of core.old) }
    ensures ok { IfOk result (λ reply. Gives core.old core.new reply (deeds.answer number core.old command.now)) }
    ensures err { OnErr result (IsLeft core.old core.new) }
    ensures last { core.new.last ≤ number }
{
    match refuse_long(command) {
        Err(refusal) => Ok(refused(refusal)),
        Ok(()) => named_answer(alloc, core, number, command),
    }
}

// The answer to a command whose names are short enough.
fn named_answer(
    alloc: Global,
    core: &mut Core,
    number: u64,
    command: &Command,
) -> Result<Reply, NoMemory>
    requires core { IsCore core.old }
    requires conditions { AreConditions command.now }
    requires number { core.old.last < number }
    requires numbers { AreNextUpTo (2 ^ 64 - 2) (pool_of core.old) }
    ensures ok { IfOk result (λ reply. Gives core.old core.new reply (deeds.named_answer number core.old command.now)) }
    ensures err { OnErr result (IsLeft core.old core.new) }
    ensures last { core.new.last ≤ number }
{
    match command {
        Command::Mkds { dataset } => mkds(alloc, core, dataset),
        Command::Rmds { dataset } => rmds(core, dataset),
        Command::Mount { dataset } => mount(core, dataset),
        Command::Create { dataset, file } => create(alloc, core, dataset, file),
        Command::Remove { dataset, file } => remove(core, dataset, file),
        Command::Write {
            dataset,
            file,
            offset,
            bytes,
        } => {
            let input = Input::Bytes {
                bytes: bytes.bytes(),
            };
            write(alloc, core, number, dataset, file, *offset, &input)
        }
        Command::Fill {
            dataset,
            file,
            offset,
            length,
            byte,
        } => {
            let input = Input::Repeated {
                byte: *byte,
                length: *length,
            };
            write(alloc, core, number, dataset, file, *offset, &input)
        }
        Command::Truncate {
            dataset,
            file,
            size,
        } => truncate(alloc, core, number, dataset, file, *size),
        Command::Read {
            dataset,
            file,
            offset,
            length,
        } => read(alloc, core, dataset, file, *offset, *length),
        Command::Stat { dataset, file } => stat(core, dataset, file),
        Command::Commit => Ok(Reply::Done),
    }
}

// The reply of a refusal.
fn refused(refusal: Refusal) -> Reply
    ensures { result ≡ reply.No refusal }
{
    Reply::No { refusal }
}

// A new dataset.
#[tactic(auto, unfolding(crate::specs::Deeds::mkds))]
fn mkds(alloc: Global, core: &mut Core, dataset: &Name) -> Result<Reply, NoMemory>
    requires core { IsCore core.old }
    requires numbers { AreNextUpTo (2 ^ 64 - 2) (pool_of core.old) }
    ensures ok { IfOk result (λ reply. Gives core.old core.new reply (deeds.mkds dataset.now core.old)) }
    ensures err { OnErr result (IsLeft core.old core.new) }
    ensures last { core.new.last ≡ core.old.last }
{
    if dataset_index(core, dataset).is_some() {
        return Ok(refused(Refusal::Eexist));
    }
    let need = core.datasets.len() as u64 + 1;
    if MOST_DATASETS < need {
        return Ok(refused(Refusal::Enospc {
            what: What::Datasets,
            need,
            most: MOST_DATASETS,
        }));
    }
    add_dataset(alloc, core, dataset)?;
    Ok(Reply::Done)
}

// A dataset and its files go.
#[tactic(auto, unfolding(crate::specs::Deeds::rmds))]
fn rmds(core: &mut Core, dataset: &Name) -> Result<Reply, NoMemory>
    requires core { IsCore core.old }
    ensures ok { IfOk result (λ reply. Gives core.old core.new reply (deeds.rmds dataset.now core.old)) }
    ensures err { OnErr result (IsLeft core.old core.new) }
    ensures last { core.new.last ≡ core.old.last }
{
    let place = match dataset_of(core, dataset) {
        Err(refusal) => return Ok(refused(refusal)),
        Ok(place) => place,
    };
    drop_dataset(core, place)?;
    Ok(Reply::Done)
}

// Each dataset is mounted, so this is refused.
#[tactic(auto, unfolding(crate::specs::Deeds::mount))]
fn mount(core: &Core, dataset: &Name) -> Result<Reply, NoMemory>
    ensures ok { IfOk result (λ reply. Gives core.now core.now reply (deeds.mount dataset.now core.now)) }
{
    Ok(refused(match dataset_of(core, dataset) {
        Err(refusal) => refusal,
        Ok(_) => Refusal::Ebusy { why: Why::Mounted },
    }))
}

// A new file.
#[tactic(auto, unfolding(crate::specs::Deeds::create))]
fn create(alloc: Global, core: &mut Core, dataset: &Name, file: &Name) -> Result<Reply, NoMemory>
    requires core { IsCore core.old }
    requires numbers { AreNextUpTo (2 ^ 64 - 2) (pool_of core.old) }
    ensures ok { IfOk result (λ reply. Gives core.old core.new reply (deeds.create dataset.now file.now core.old)) }
    ensures err { OnErr result (IsLeft core.old core.new) }
    ensures last { core.new.last ≡ core.old.last }
{
    let place = match dataset_of(core, dataset) {
        Err(refusal) => return Ok(refused(refusal)),
        Ok(place) => place,
    };
    if dataset_at(core, place).files.find(file).is_some() {
        return Ok(refused(Refusal::Eexist));
    }
    let need = dataset_at(core, place).files.len() as u64 + 1;
    let most = u64::from(core.limits.files());
    if most < need {
        return Ok(refused(Refusal::Enospc {
            what: What::Files,
            need,
            most,
        }));
    }
    add_file(alloc, core, place, file)?;
    Ok(Reply::Done)
}

// A file goes.
#[tactic(auto, unfolding(crate::specs::Deeds::remove))]
fn remove(core: &mut Core, dataset: &Name, file: &Name) -> Result<Reply, NoMemory>
    requires core { IsCore core.old }
    ensures ok { IfOk result (λ reply. Gives core.old core.new reply (deeds.remove dataset.now file.now core.old)) }
    ensures err { OnErr result (IsLeft core.old core.new) }
    ensures last { core.new.last ≡ core.old.last }
{
    let spot = match spot_of(core, dataset, file) {
        Err(refusal) => return Ok(refused(refusal)),
        Ok(spot) => spot,
    };
    drop_file(core, spot)?;
    Ok(Reply::Done)
}

// Bytes stand at the offset, by the command with the number.
#[tactic(auto, unfolding(crate::specs::Deeds::write, crate::specs::Deeds::put))]
fn write(
    alloc: Global,
    core: &mut Core,
    number: u64,
    dataset: &Name,
    file: &Name,
    offset: u64,
    input: &Input,
) -> Result<Reply, NoMemory>
    requires core { IsCore core.old }
    requires number { core.old.last < number }
    requires fits { (offset ≤ 2 ^ 62) × (length (input_bytes input.now) ≤ 2 ^ 63) }
    ensures ok { IfOk result (λ reply. Gives core.old core.new reply (deeds.write number dataset.now file.now offset (input_bytes input.now) core.old)) }
    ensures err { OnErr result (IsLeft core.old core.new) }
    ensures last { core.new.last ≤ number }
{
    let spot = match spot_of(core, dataset, file) {
        Err(refusal) => return Ok(refused(refusal)),
        Ok(spot) => spot,
    };
    if input.len() == 0 {
        return Ok(Reply::Count { bytes: 0 });
    }
    put_some(alloc, core, spot, number, offset, input)
}

// The bytes, of which there are some, stand in the file that stands there, where there is room for them.
#[tactic(auto, unfolding(crate::specs::Deeds::put_some))]
fn put_some(
    alloc: Global,
    core: &mut Core,
    spot: Spot,
    number: u64,
    offset: u64,
    input: &Input,
) -> Result<Reply, NoMemory>
    requires core { IsCore core.old }
    requires number { core.old.last < number }
    requires within { spot.place < length core.old.datasets }
    requires there { IsSome (file_on spot core.old) }
    requires some { 0 < length (input_bytes input.now) }
    requires fits { offset + length (input_bytes input.now) < 2 ^ 64 }
    ensures ok { IfOk result (λ reply. Gives core.old core.new reply (deeds.put_some number spot offset (input_bytes input.now) core.old)) }
    ensures err { OnErr result (IsLeft core.old core.new) }
    ensures last { core.new.last ≤ number }
{
    if let Err(refusal) = room_in_file(core, spot, offset, input.len()) {
        return Ok(refused(refusal));
    }
    let more = unmade_touched(core, spot, offset, input.len());
    if let Err(refusal) = refuse_charge(core, more) {
        return Ok(refused(refusal));
    }
    put_bytes(alloc, core, spot, number, offset, input)?;
    Ok(Reply::Count { bytes: input.len() })
}

// The size of a file is set, by the command with the number.
#[tactic(auto, unfolding(crate::specs::Deeds::truncate))]
fn truncate(
    alloc: Global,
    core: &mut Core,
    number: u64,
    dataset: &Name,
    file: &Name,
    size: u64,
) -> Result<Reply, NoMemory>
    requires core { IsCore core.old }
    requires number { core.old.last < number }
    ensures ok { IfOk result (λ reply. Gives core.old core.new reply (deeds.truncate number dataset.now file.now size core.old)) }
    ensures err { OnErr result (IsLeft core.old core.new) }
    ensures last { core.new.last ≤ number }
{
    let spot = match spot_of(core, dataset, file) {
        Err(refusal) => return Ok(refused(refusal)),
        Ok(spot) => spot,
    };
    if let Err(refusal) = refuse_end(core, size) {
        return Ok(refused(refusal));
    }
    let more = unmade_trimmed(core, spot, size);
    if let Err(refusal) = refuse_charge(core, more) {
        return Ok(refused(refusal));
    }
    set_size(alloc, core, spot, number, size)?;
    Ok(Reply::Done)
}

// The bytes from the offset on. Nothing changes.
#[tactic(auto, unfolding(crate::specs::Deeds::read))]
fn read(
    alloc: Global,
    core: &Core,
    dataset: &Name,
    file: &Name,
    offset: u64,
    length: u64,
) -> Result<Reply, NoMemory>
    requires core { IsCore core.now }
    ensures ok { IfOk result (λ reply. Gives core.now core.now reply (deeds.read dataset.now file.now offset length core.now)) }
{
    let spot = match spot_of(core, dataset, file) {
        Err(refusal) => return Ok(refused(refusal)),
        Ok(spot) => spot,
    };
    if MOST_READ < length {
        return Ok(refused(Refusal::Einval { bad: Bad::Length }));
    }
    let bytes = bytes_from(alloc, &file_on(core, spot).value, offset, length)?;
    Ok(Reply::Data { bytes })
}

// The size of a file, and how many of its blocks are no holes. Nothing changes.
#[tactic(auto, unfolding(crate::specs::Deeds::stat))]
fn stat(core: &Core, dataset: &Name, file: &Name) -> Result<Reply, NoMemory>
    ensures ok { IfOk result (λ reply. Gives core.now core.now reply (deeds.stat dataset.now file.now core.now)) }
{
    let spot = match spot_of(core, dataset, file) {
        Err(refusal) => return Ok(refused(refusal)),
        Ok(spot) => spot,
    };
    let file = &file_on(core, spot).value;
    Ok(Reply::Size {
        size: file.size,
        blocks: file.pointers,
    })
}
