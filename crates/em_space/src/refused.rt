ghost use Rattle.std.specs.Prelude.{◌≡◌};

use em_frames::{BeginFault, Device, Pool};

/// Why a rig wasn't opened. It has what was given to `Rig::open`, and hands it back by `take`.
pub struct OpenRefused<'d, D: Device, P = Pool> {
    pub(crate) device: &'d mut D,
    pub(crate) pool: P,
    pub(crate) fault: BeginFault,
}

impl<'d, D: Device> OpenRefused<'d, D> {
    /// The pool, and why the device wasn't begun.
    pub fn take(self) -> (Pool, BeginFault)
        ensures pool { result.0 ≡ self.entry.pool }
        ensures fault { result.1 ≡ self.entry.fault }
        ensures device { self.exit.0.now ≡ self.entry.device.now }
    {
        let OpenRefused {
            device: _,
            pool,
            fault,
        } = self;
        (pool, fault)
    }
}
