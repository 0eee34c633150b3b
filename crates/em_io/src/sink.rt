ghost use Rattle.std.specs.Prelude.{◌≡◌, ◌<◌, ◌≤◌, List, ℕ, length, take, IfOk, OnOk, OnErr};
ghost use Rattle.em_io.specs.Sink.{IsRule, SentPart};
ghost use Rattle.em_record.specs.Count.{HasCause};

use em_record::Failed;

/// What bytes are written to.
pub trait Sink {
    /// What the sink has taken, as far as it tells.
    ghost state: { Self → List ℕ };

    /// The state after these bytes were written.
    ghost took: { List ℕ → List ℕ → List ℕ };

    /// Which lists are states.
    ghost IsState: { List ℕ → Type 0 };

    /// How often it has failed; it stays at 2^64 - 1.
    ghost faults: { Self → ℕ };

    /// Takes bytes from the front: how many it took, at least one. If it fails it took none.
    fn write(&mut self, from: &[u8]) -> Result<usize, Failed>
        requires { 0 < length from.now }
        ensures some { IfOk result (λ n. 0 < n) }
        ensures within { IfOk result (λ n. n ≤ length from.now) }
        ensures took { IfOk result (λ n. state self.new ≡ took (state self.old) (take n from.now)) }
        ensures kept { OnErr result (state self.new ≡ state self.old) }
        ensures cause { HasCause (faults self.old) (faults self.new) result };

    /// A sink's own state is a state.
    ghost is_state: { (sink : Self) → IsState (state sink) };

    /// Nothing written leaves a state, and two writes are one.
    ghost rule: { IsRule IsState took };
}

/// Writes all the bytes: it offers them in one call, then all that is left of them, until nothing
/// is left. If it fails a prefix of them was written.
pub fn send<W: Sink>(sink: &mut W, bytes: &[u8]) -> Result<(), Failed>
    ensures all { OnOk result (W.state sink.new ≡ W.took (W.state sink.old) bytes.now) }
    ensures part { SentPart W.took (W.state sink.old) bytes.now (W.state sink.new) }
    ensures cause { HasCause (W.faults sink.old) (W.faults sink.new) result }
{
    let mut done = 0;
    while done < bytes.len() {
        done += sink.write(&bytes[done..])?;
    }
    Ok(())
}
