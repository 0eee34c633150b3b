use em_record::Record;

/// One child of a node.
#[derive(Clone, Copy, Debug, PartialEq, Eq)]
pub struct Entry {
    /// The least key of the child. Its keys end at the low key of the next entry.
    pub low: Record,
    /// A link to the child: its block's number, plus 1.
    pub child: u64,
    /// The chain of what waits on the way to the child, as its five words.
    pub buffer: [u64; 5],
}
