use em_chain::Chain;
use em_record::Record;

/// What a load left of a leaf: its records, or the two parts of which it has too many for one
/// leaf. Beside the high part stands its least key.
#[derive(Drop)]
pub struct LeafChange {
    pub low: Chain,
    pub high: Option<(Record, Chain)>,
}
