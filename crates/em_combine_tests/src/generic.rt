//! A load that is gathered and joined, over any combiner.
ghost use Rattle.std.specs.Prelude.{◌≡◌, ◌<◌, ◌≤◌, ◌+◌};
ghost use Rattle.em_combine.specs.Joining.{others, runs};

use em_combine::Gather;
use em_settle::{AddSettle, Combine, Settle};

/// Joins a load, and answers how many operations it has then.
pub fn join_load<F: Fn(u64, u64) -> u64 + Drop>(gather: &mut Gather, settle: &AddSettle<F>) -> usize
    requires ready { ⟦<AddSettle<F> as Settle>⟧.IsReady settle.now }
    ensures count { result ≡ runs gather.old.items + others gather.old.items }
    ensures capacity { gather.new.capacity ≡ gather.old.capacity }
{
    gather.join(settle);
    gather.len()
}

/// Joins a load by the combiner of this kind.
pub fn join_by(gather: &mut Gather, kind: Combine) -> usize
    ensures count { result ≡ runs gather.old.items + others gather.old.items }
    ensures capacity { gather.new.capacity ≡ gather.old.capacity }
{
    match kind {
        Combine::Sum => join_load(
            gather,
            &AddSettle::new(|x: u64, y: u64| x.wrapping_add(y), Combine::Sum),
        ),
        Combine::Max => join_load(
            gather,
            &AddSettle::new(|x: u64, y: u64| x.max(y), Combine::Max),
        ),
        Combine::Min => join_load(
            gather,
            &AddSettle::new(|x: u64, y: u64| x.min(y), Combine::Min),
        ),
        Combine::Xor => join_load(
            gather,
            &AddSettle::new(|x: u64, y: u64| x ^ y, Combine::Xor),
        ),
    }
}
