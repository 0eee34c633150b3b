ghost use Rattle.std.specs.Prelude.{take};
ghost use Rattle.em_space.specs.Seen.{seen};
ghost use Rattle.em_chain.specs.Chain.{chain_items};
ghost use Rattle.em_chain.specs.Writer.{WriterHasFrame};
ghost use Rattle.em_plain.specs.Adds.{AddsTo};
ghost use Rattle.em_plain.specs.Asks.{Asks, answer_to, most_for};
ghost use Rattle.em_plain.specs.Ready.{ReadyBeside};

use em_chain::{Chain, Writer};
use em_frames::Device;
use em_model::Command;
use em_space::{EmFault, Rig};

/// What is asked of a list of commands, and how one of them is answered.
pub(crate) trait Question {
    /// What is asked.
    ghost asks: { Self → Asks };
    /// What it needs to answer.
    ghost CanAnswer: { Self → Type 0 };

    /// Writes the answer of a command that follows the first `number` ones of a chain. If it is a stab,
    /// it has the number `stab`.
    fn answer<D: Device>(
        &self,
        rig: &mut Rig<'_, D>,
        chain: &Chain,
        number: u64,
        command: Command,
        stab: u64,
        writer: &mut Writer,
    ) -> Result<(), EmFault>
        requires can { CanAnswer self.now }
        requires ready { ReadyBeside number (seen D.state rig.old) chain.now writer.old }
        ensures done { AddsTo (most_for (asks self.now) chain.now.count)
            (seen D.state rig.old) (seen D.state rig.new) writer.old writer.new
            (answer_to (asks self.now) number stab
            (take number (chain_items (seen D.state rig.old) chain.now)) command) result }
        ensures frame { WriterHasFrame (seen D.state rig.new) writer.new };
}
