ghost use Rattle.std.specs.Prelude.{◌≡◌};
ghost use Rattle.em_model.specs.Sync.{up_to_sync};

use crate::command::Command;

/// The commands up to and with the last sync, or none if there is no sync. Their gets are those
/// that the syncs answer.
pub fn synced(commands: &[Command]) -> &[Command]
    ensures { result.now ≡ up_to_sync commands.now }
{
    let mut count = 0;
    for (i, command) in commands.iter().enumerate() {
        if let Command::Sync = *command {
            count = i + 1;
        }
    }
    &commands[..count]
}
