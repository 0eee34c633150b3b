ghost use Rattle.std.specs.Prelude.{◌≡◌};
ghost use Rattle.em_plain.specs.Command.{record_of, command_in};

use em_model::Command;
use em_record::Record;

/// The record of a command with these operands and the number of its word.
fn record_with(a: u64, b: u64, c: u64) -> Record
    ensures { result ≡ record { a = a; b = b; c = c; d = 0 } }
{
    Record { a, b, c, d: 0 }
}

/// The record that stands for a command.
pub(crate) fn to_record(command: Command) -> Record
    ensures { result ≡ record_of command }
{
    match command {
        Command::Put { key, value } => record_with(key, value, 0),
        Command::Del { key } => record_with(key, 0, 1),
        Command::Get { key } => record_with(key, 0, 2),
        Command::Push { key, value } => record_with(key, value, 3),
        Command::Pop => record_with(0, 0, 4),
        Command::Interval { low, high } => record_with(low, high, 5),
        Command::Stab { point } => record_with(point, 0, 6),
        Command::Add { key, value } => record_with(key, value, 7),
        Command::Sync => record_with(0, 0, 8),
    }
}

/// The command that a record stands for.
pub(crate) fn to_command(item: Record) -> Command
    ensures { result ≡ command_in item }
{
    match item.c {
        0 => Command::Put {
            key: item.a,
            value: item.b,
        },
        1 => Command::Del { key: item.a },
        2 => Command::Get { key: item.a },
        3 => Command::Push {
            key: item.a,
            value: item.b,
        },
        4 => Command::Pop,
        5 => Command::Interval {
            low: item.a,
            high: item.b,
        },
        6 => Command::Stab { point: item.a },
        7 => Command::Add {
            key: item.a,
            value: item.b,
        },
        _ => Command::Sync,
    }
}
