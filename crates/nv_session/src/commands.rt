//! Which commands are calls.

ghost use Rattle.std.specs.Prelude.{◌≡◌, option_map};
ghost use Rattle.nv_history.specs.Said.{said};
ghost use Rattle.nv_line.specs.View.{view};
ghost use Rattle.nv_session.specs.Commands.{call_at, within_at};

use nv_calls::Data;
use nv_history::Call;
use nv_line::Command;

/// The mode of a file that `create` makes.
const FILE_MODE: u32 = 420;

/// The mode of a directory that `mkdir` makes.
const DIRECTORY_MODE: u32 = 493;

/// The call that a command is at this time, if it is one.
pub(crate) fn call_of<'a>(command: &Command<'a>, time: u64) -> Option<Call<'a>>
    ensures { option_map said result ≡ call_at time (view command.now) }
{
    match *command {
        Command::Create { cpu, path } => Some(Call::Create {
            cpu,
            path,
            mode: FILE_MODE,
            time,
        }),
        Command::MakeDirectory { cpu, path } => Some(Call::MakeDirectory {
            cpu,
            path,
            mode: DIRECTORY_MODE,
            time,
        }),
        Command::Link { cpu, old, new } => Some(Call::Link {
            cpu,
            old,
            new,
            time,
        }),
        Command::Unlink { cpu, path } => Some(Call::Unlink { cpu, path, time }),
        Command::RemoveDirectory { cpu, path } => Some(Call::RemoveDirectory { cpu, path, time }),
        Command::Rename { cpu, old, new } => Some(Call::Rename {
            cpu,
            old,
            new,
            time,
        }),
        _ => within_of(command, time),
    }
}

// The same where it leaves the names as they are.
fn within_of<'a>(command: &Command<'a>, time: u64) -> Option<Call<'a>>
    ensures { option_map said result ≡ within_at time (view command.now) }
{
    match *command {
        Command::Write {
            cpu,
            path,
            offset,
            count,
            byte,
        } => Some(Call::Write {
            cpu,
            path,
            offset,
            content: Data::Same { byte, count },
            time,
        }),
        Command::SetSize { cpu, path, size } => Some(Call::SetSize {
            cpu,
            path,
            size,
            time,
        }),
        Command::SetAttributes {
            cpu,
            path,
            mode,
            owner,
            group,
        } => Some(Call::SetAttributes {
            cpu,
            path,
            mode,
            owner,
            group,
            time,
        }),
        Command::Clean { path } => Some(Call::Clean { path }),
        Command::Upgrade => Some(Call::Upgrade),
        _ => None,
    }
}
