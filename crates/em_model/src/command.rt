/// A command of any of the three command files. Each structure answers its own commands, and those
/// of the other files change nothing there.
#[derive(Clone, Copy, Debug, PartialEq, Eq)]
pub enum Command {
    /// Map: the key has this value from here on.
    Put { key: u64, value: u64 },
    /// Map: the key has no value from here on.
    Del { key: u64 },
    /// Map: the key has this value joined to the one that it had, or this value alone if it had none.
    Add { key: u64, value: u64 },
    /// Map: asks for the value of the key.
    Get { key: u64 },
    /// Map: asks for the answers of all gets that weren't answered yet, and changes none.
    Sync,
    /// Queue: adds an element after all earlier ones of its key.
    Push { key: u64, value: u64 },
    /// Queue: asks for the element of least key, of those the first pushed, and removes it.
    Pop,
    /// Interval list: adds the interval of all points from `low` to `high`, both included.
    Interval { low: u64, high: u64 },
    /// Interval list: asks for the numbers of the earlier intervals that hold the point.
    Stab { point: u64 },
}
