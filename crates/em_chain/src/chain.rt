ghost use Rattle.std.specs.Prelude.{◌≡◌, ◌≤◌, ◌^◌, slice_index};
ghost use Rattle.em_chain.specs.Chain.{empty_chain, word_list};

/// A list of records in blocks of a device. It holds its blocks, and no frame; what it is made of
/// are five words, which may be kept in records.
#[derive(Drop)]
pub struct Chain {
    pub(crate) head: u64,
    pub(crate) skip: u64,
    pub(crate) tail: u64,
    pub(crate) count: u64,
    pub(crate) blocks: u64,
}

impl Chain {
    /// A list with no record and no block.
    pub fn empty() -> Chain
        ensures { result ≡ empty_chain }
    {
        Chain {
            head: 0,
            skip: 0,
            tail: 0,
            count: 0,
            blocks: 0,
        }
    }

    /// The records of the list.
    pub fn len(&self) -> u64
        ensures { result ≡ self.now.count }
    {
        self.count
    }

    /// The blocks that the chain holds.
    pub fn blocks(&self) -> u64
        ensures { result ≡ self.now.blocks }
    {
        self.blocks
    }

    /// The five words of the chain: a link to its first block, how many of that block's records
    /// are passed over, a link to its last block, its records and its blocks. A link is 0 for no
    /// block, else the block's number plus 1.
    pub fn words(&self) -> [u64; 5]
        ensures { result ≡ word_list self.now }
    {
        [self.head, self.skip, self.tail, self.count, self.blocks]
    }

    /// The chain with these words.
    pub fn from_words(words: [u64; 5]) -> Chain
        requires count { slice_index words 3 ≤ 2 ^ 56 }
        requires blocks { slice_index words 4 ≤ 2 ^ 56 }
        ensures { words ≡ word_list result }
    {
        let [head, skip, tail, count, blocks] = words;
        Chain {
            head,
            skip,
            tail,
            count,
            blocks,
        }
    }
}
