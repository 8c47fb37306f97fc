// Of which kind commands and replies are.
ghost use Rattle.std.specs.Prelude.{◌≡◌, ◌||◌, Some};
ghost use Rattle.zc_plain.specs.History.{is_waiting};
ghost use Rattle.zc_open.specs.Since.{is_change, is_done, is_changed_by};

use zc_command::{Command, Reply};

/// Whether the command is answered once the disks are.
pub fn is_waiting(command: &Command) -> bool
    ensures { result ≡ is_waiting command.now }
{
    match command {
        Command::Mkds { .. }
        | Command::Rmds { .. }
        | Command::Mount { .. }
        | Command::Create { .. }
        | Command::Remove { .. }
        | Command::Write { .. }
        | Command::Fill { .. }
        | Command::Truncate { .. }
        | Command::Read { .. }
        | Command::Stat { .. } => false,
        Command::Commit => true,
    }
}

// Whether the command is of a kind that changes datasets or files.
fn is_change(command: &Command) -> bool
    ensures { result ≡ is_change command.now }
{
    match command {
        Command::Mkds { .. }
        | Command::Rmds { .. }
        | Command::Mount { .. }
        | Command::Create { .. }
        | Command::Remove { .. }
        | Command::Write { .. }
        | Command::Fill { .. }
        | Command::Truncate { .. } => true,
        Command::Read { .. } | Command::Stat { .. } | Command::Commit => false,
    }
}

// Whether the reply is no refusal.
fn is_done(reply: &Reply) -> bool
    ensures { result ≡ is_done reply.now }
{
    match reply {
        Reply::Done | Reply::Count { .. } | Reply::Data { .. } | Reply::Size { .. } => true,
        Reply::No { .. } => false,
    }
}

/// Whether something was changed before, or a change was asked now and the reply isn't a refusal.
pub fn is_changed(before: bool, command: &Command, reply: &Reply) -> bool
    ensures { result ≡ before || is_changed_by (Some command.now) reply.now }
{
    before || (is_change(command) && is_done(reply))
}
