ghost use Rattle.std.specs.Prelude.{◌≡◌, ◌<◌, ◌≤◌, [], length, is_err, IfOk, if◌then◌else◌, refl};
ghost use Rattle.std.specs.Io.KnownBytes.{WriteAppends};
ghost use Rattle.em_record.specs.Count.{HasCause, next_count};

use crate::sink::Sink;
use em_record::Failed;
use std::io::Write;
use std::marker::Model;

/// A writer of std as a sink that tells nothing. It is seen as what the writer holds, where the
/// writer tells that, and the number of writes that failed; one that takes no bytes has failed.
#[derive(Drop)]
pub struct StdSink<X: Write + Drop> {
    writer: X,
    faults: u64,
}

impl<X: Write + Drop> Model for StdSink<X> {
    ghost use Rattle.em_io.specs.StdSink.{StdSinkState};

    ghost Value = { StdSinkState };

    ghost view = { λ s. record { contents = X.contents s.writer; faults = s.faults } };
}

impl<X: Write + Drop> StdSink<X> {
    /// A sink over this writer.
    pub fn new(writer: X) -> StdSink<X>
        ensures { result ≡ record { contents = X.contents writer; faults = 0 } }
    {
        StdSink { writer, faults: 0 }
    }
}

impl<X: Write + Drop> Sink for StdSink<X> {
    ghost state = { λ _. [] };

    ghost took = { λ s _. s };

    ghost IsState = { λ s. s ≡ [] };

    ghost faults = { λ s. s.faults };

    fn write(&mut self, from: &[u8]) -> Result<usize, Failed>
        requires { 0 < length from.now }
        ensures some { IfOk result (λ n. 0 < n) }
        ensures within { IfOk result (λ n. n ≤ length from.now) }
        ensures cause { HasCause self.old.faults self.new.faults result }
        ensures count { self.new.faults
            ≡ (if is_err result then next_count self.old.faults else self.old.faults) }
        ensures writer { WriteAppends self.old.contents self.new.contents result from.now }
    {
        match self.writer.write(from) {
            Ok(0) | Err(_) => {
                self.faults = self.faults.saturating_add(1);
                Err(Failed)
            }
            Ok(count) => Ok(count),
        }
    }

    ghost is_state = { λ _. refl };

    ghost rule = { record { stays = λ s x h. h; nothing = λ s h. refl; both = λ s x y h. refl } };
}
