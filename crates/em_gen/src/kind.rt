/// A kind of text to make: a command file, or a circuit with a stimulus.
#[derive(Clone, Copy, Debug, PartialEq, Eq, Drop)]
pub enum GenKind {
    /// Commands of a map: `put`, `get` and `del`.
    Map,
    /// Commands of a queue: `push` and `pop`.
    Queue,
    /// Commands of an interval list: `iv` and `stab`.
    Stab,
    /// A circuit in ASCII in the first slot, and a stimulus in the second.
    Eval,
}
