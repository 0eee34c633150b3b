// Where the edges of a graph lead that lead to no gate: to places above all variables.

/// The place of the first latch in the edges of a graph, 2^41; those of the others follow it.
pub const LATCH_PLACES: u64 = 2_199_023_255_552;

/// The place of the first column in the edges of a graph, 2^42; those of the others follow it.
pub const COLUMN_PLACES: u64 = 4_398_046_511_104;
