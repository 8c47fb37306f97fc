// The forms of lines: the table of specs/Forms.antt, row by row.
ghost use Rattle.std.specs.Prelude.{◌≡◌, ◌↔◌, IfOk, Some};
ghost use Rattle.std.specs.Option.{option_map};
ghost use Rattle.zc_script.specs.declared.act.Said.{Said};
ghost use Rattle.zc_script.specs.declared.act.Said.TheVariants.{Does};
ghost use Rattle.zc_script.specs.Words.{pieces_between};
ghost use Rattle.zc_script.specs.Forms.{form_of, dataset_command, file_command, session_spoken, dataset_spoken, file_spoken, write_spoken, fill_spoken, truncate_spoken, read_spoken, commit_spoken, spoken_of_form, act_at, act_in, said_in, said_of};
ghost use Rattle.zc_script.specs.Spelling.{Spells};

use crate::act::{Act, Said};
use crate::paths::{dataset_path, file_path};
use crate::pieces::{four_pieces, one_piece, split_once, three_pieces, two_pieces};
use crate::pools::{is_pool_name, pool_at};
use crate::words::{byte_of, bytes_of, number_of, session_of};
use std::alloc::Global;
use zc_command::Command;
use zc_num::{Name, NoMemory};

// What is done with a dataset as a whole.
#[derive(Clone, Copy)]
pub enum DatasetForm {
    Mkds,
    Rmds,
    Mount,
}

// What is done with a file as a whole.
#[derive(Clone, Copy)]
pub enum FileForm {
    Create,
    Remove,
    Stat,
}

// What a line's first word says.
#[derive(Clone, Copy)]
pub enum Form {
    Session,
    OnDataset { form: DatasetForm },
    OnFile { form: FileForm },
    Write,
    Fill,
    Truncate,
    Read,
    Commit,
}

// The form of this first word.
#[tactic(auto, unfolding(crate::specs::Forms::form_of))]
fn form_of(word: &[u8]) -> Option<Form>
    ensures { result ≡ form_of word.now }
{
    if word == b"session".as_slice() {
        Some(Form::Session)
    } else if word == b"mkds".as_slice() {
        let form = DatasetForm::Mkds;
        Some(Form::OnDataset { form })
    } else if word == b"rmds".as_slice() {
        let form = DatasetForm::Rmds;
        Some(Form::OnDataset { form })
    } else if word == b"mount".as_slice() {
        let form = DatasetForm::Mount;
        Some(Form::OnDataset { form })
    } else if word == b"create".as_slice() {
        let form = FileForm::Create;
        Some(Form::OnFile { form })
    } else if word == b"remove".as_slice() {
        let form = FileForm::Remove;
        Some(Form::OnFile { form })
    } else if word == b"stat".as_slice() {
        let form = FileForm::Stat;
        Some(Form::OnFile { form })
    } else if word == b"write".as_slice() {
        Some(Form::Write)
    } else if word == b"fill".as_slice() {
        Some(Form::Fill)
    } else if word == b"truncate".as_slice() {
        Some(Form::Truncate)
    } else if word == b"read".as_slice() {
        Some(Form::Read)
    } else if word == b"commit".as_slice() {
        Some(Form::Commit)
    } else {
        None
    }
}

// The command of a form on this dataset.
fn dataset_command(form: DatasetForm, dataset: Name) -> Command
    ensures { result ≡ dataset_command form dataset }
{
    match form {
        DatasetForm::Mkds => Command::Mkds { dataset },
        DatasetForm::Rmds => Command::Rmds { dataset },
        DatasetForm::Mount => Command::Mount { dataset },
    }
}

// The command of a form on this file.
fn file_command(form: FileForm, dataset: Name, file: Name) -> Command
    ensures { result ≡ file_command form dataset file }
{
    match form {
        FileForm::Create => Command::Create { dataset, file },
        FileForm::Remove => Command::Remove { dataset, file },
        FileForm::Stat => Command::Stat { dataset, file },
    }
}

// A command of the pool of this name.
fn act_in(pools: &[Name], pool: &[u8], command: Command) -> Act
    ensures { result ≡ act_in pools.now pool.now command }
{
    match pool_at(pools, pool) {
        Some(pool) => Act::Pool { pool, command },
        None => Act::NoSuchPool,
    }
}

// A line that asks for a command of the pool of this name.
fn does(pools: &[Name], pool: &[u8], command: Command) -> Said
    ensures { result ≡ Does (act_in pools.now pool.now command) }
{
    Said::Does {
        act: act_in(pools, pool, command),
    }
}

// `N` after `session`.
#[tactic(auto, unfolding(crate::specs::Forms::session_spoken))]
fn session_said(pools: &[Name], words: &[u8]) -> Option<Said>
    ensures { result ≡ said_in pools.now (session_spoken (pieces_between 32 words.now)) }
{
    let Some(word) = one_piece(b' ', words) else {
        return None;
    };
    match session_of(word) {
        Some(session) => Some(Said::Session { session }),
        None => None,
    }
}

// `P/D` after the word of a form on a dataset.
#[tactic(auto, unfolding(crate::specs::Forms::dataset_spoken))]
fn dataset_said(
    alloc: Global,
    pools: &[Name],
    form: DatasetForm,
    words: &[u8],
) -> Result<Option<Said>, NoMemory>
    ensures { IfOk result (λ said. said ≡ said_in pools.now (dataset_spoken form (pieces_between 32 words.now))) }
{
    let Some(word) = one_piece(b' ', words) else {
        return Ok(None);
    };
    let Some((pool, dataset)) = dataset_path(word) else {
        return Ok(None);
    };
    let dataset = Name::of(alloc, dataset)?;
    let command = dataset_command(form, dataset);
    Ok(Some(does(pools, pool, command)))
}

// `P/D/F` after the word of a form on a file.
#[tactic(auto, unfolding(crate::specs::Forms::file_spoken))]
fn file_said(
    alloc: Global,
    pools: &[Name],
    form: FileForm,
    words: &[u8],
) -> Result<Option<Said>, NoMemory>
    ensures { IfOk result (λ said. said ≡ said_in pools.now (file_spoken form (pieces_between 32 words.now))) }
{
    let Some(word) = one_piece(b' ', words) else {
        return Ok(None);
    };
    let Some((pool, dataset, file)) = file_path(word) else {
        return Ok(None);
    };
    let dataset = Name::of(alloc, dataset)?;
    let file = Name::of(alloc, file)?;
    let command = file_command(form, dataset, file);
    Ok(Some(does(pools, pool, command)))
}

// `P/D/F FROM HEX` after `write`.
#[tactic(auto, unfolding(crate::specs::Forms::write_spoken))]
fn write_said(alloc: Global, pools: &[Name], words: &[u8]) -> Result<Option<Said>, NoMemory>
    ensures { IfOk result (λ said. said ≡ said_in pools.now (write_spoken (pieces_between 32 words.now))) }
{
    let Some((path, from, digits)) = three_pieces(b' ', words) else {
        return Ok(None);
    };
    let Some((pool, dataset, file)) = file_path(path) else {
        return Ok(None);
    };
    let Some(offset) = number_of(from) else {
        return Ok(None);
    };
    let Some(bytes) = bytes_of(alloc, digits)? else {
        return Ok(None);
    };
    let dataset = Name::of(alloc, dataset)?;
    let file = Name::of(alloc, file)?;
    let command = Command::Write {
        dataset,
        file,
        offset,
        bytes,
    };
    Ok(Some(does(pools, pool, command)))
}

// `P/D/F FROM LEN BYTE` after `fill`.
#[tactic(auto, unfolding(crate::specs::Forms::fill_spoken))]
fn fill_said(alloc: Global, pools: &[Name], words: &[u8]) -> Result<Option<Said>, NoMemory>
    ensures { IfOk result (λ said. said ≡ said_in pools.now (fill_spoken (pieces_between 32 words.now))) }
{
    let Some((path, from, count, value)) = four_pieces(b' ', words) else {
        return Ok(None);
    };
    let Some((pool, dataset, file)) = file_path(path) else {
        return Ok(None);
    };
    let Some(offset) = number_of(from) else {
        return Ok(None);
    };
    let Some(length) = number_of(count) else {
        return Ok(None);
    };
    let Some(byte) = byte_of(value) else {
        return Ok(None);
    };
    let dataset = Name::of(alloc, dataset)?;
    let file = Name::of(alloc, file)?;
    let command = Command::Fill {
        dataset,
        file,
        offset,
        length,
        byte,
    };
    Ok(Some(does(pools, pool, command)))
}

// `P/D/F SIZE` after `truncate`.
#[tactic(auto, unfolding(crate::specs::Forms::truncate_spoken))]
fn truncate_said(alloc: Global, pools: &[Name], words: &[u8]) -> Result<Option<Said>, NoMemory>
    ensures { IfOk result (λ said. said ≡ said_in pools.now (truncate_spoken (pieces_between 32 words.now))) }
{
    let Some((path, number)) = two_pieces(b' ', words) else {
        return Ok(None);
    };
    let Some((pool, dataset, file)) = file_path(path) else {
        return Ok(None);
    };
    let Some(size) = number_of(number) else {
        return Ok(None);
    };
    let dataset = Name::of(alloc, dataset)?;
    let file = Name::of(alloc, file)?;
    let command = Command::Truncate {
        dataset,
        file,
        size,
    };
    Ok(Some(does(pools, pool, command)))
}

// `P/D/F FROM LEN` after `read`.
#[tactic(auto, unfolding(crate::specs::Forms::read_spoken))]
fn read_said(alloc: Global, pools: &[Name], words: &[u8]) -> Result<Option<Said>, NoMemory>
    ensures { IfOk result (λ said. said ≡ said_in pools.now (read_spoken (pieces_between 32 words.now))) }
{
    let Some((path, from, count)) = three_pieces(b' ', words) else {
        return Ok(None);
    };
    let Some((pool, dataset, file)) = file_path(path) else {
        return Ok(None);
    };
    let Some(offset) = number_of(from) else {
        return Ok(None);
    };
    let Some(length) = number_of(count) else {
        return Ok(None);
    };
    let dataset = Name::of(alloc, dataset)?;
    let file = Name::of(alloc, file)?;
    let command = Command::Read {
        dataset,
        file,
        offset,
        length,
    };
    Ok(Some(does(pools, pool, command)))
}

// `P` after `commit`.
#[tactic(auto, unfolding(crate::specs::Forms::commit_spoken))]
fn commit_said(pools: &[Name], words: &[u8]) -> Option<Said>
    ensures { result ≡ said_in pools.now (commit_spoken (pieces_between 32 words.now)) }
{
    let Some(word) = one_piece(b' ', words) else {
        return None;
    };
    if is_pool_name(word) {
        Some(does(pools, word, Command::Commit))
    } else {
        None
    }
}

// What the words after the first say in a line of the form.
fn said_of_form(
    alloc: Global,
    pools: &[Name],
    form: Form,
    words: &[u8],
) -> Result<Option<Said>, NoMemory>
    ensures { IfOk result (λ said. said ≡ said_in pools.now (spoken_of_form form (pieces_between 32 words.now))) }
{
    match form {
        Form::Session => Ok(session_said(pools, words)),
        Form::OnDataset { form } => dataset_said(alloc, pools, form, words),
        Form::OnFile { form } => file_said(alloc, pools, form, words),
        Form::Write => write_said(alloc, pools, words),
        Form::Fill => fill_said(alloc, pools, words),
        Form::Truncate => truncate_said(alloc, pools, words),
        Form::Read => read_said(alloc, pools, words),
        Form::Commit => Ok(commit_said(pools, words)),
    }
}

/// What a line says that isn't ignored; None where it is outside the grammar. Exactly what the line spells is read.
///
/// # Errors
/// Want of memory.
pub fn said_of(alloc: Global, pools: &[Name], line: &[u8]) -> Result<Option<Said>, NoMemory>
    ensures value { IfOk result (λ said. said ≡ said_of pools.now line.now) }
    ensures grammar { (said : Said) → (said_of pools.now line.now ≡ Some said) ↔ Spells pools.now line.now said }
{
    let Some((word, words)) = split_once(b' ', line) else {
        return Ok(None);
    };
    match form_of(word) {
        Some(form) => said_of_form(alloc, pools, form, words),
        None => Ok(None),
    }
}
