//! Circuits of the AIGER format 20070427 (Biere, "The AIGER And-Inverter Graph (AIG) Format",
//! 2007), with resets, bad literals and constraints in the manner of AIGER 1.9. The crate has types and
//! definitions alone: which texts spell which circuit, and the first fault of all others; the records
//! that stand for a circuit in chains; the values of literals, the steps and runs of a circuit; the
//! faults of a circuit whose text has none.
#![tactic(auto)]

mod circuit;
mod fault;
mod form;
mod place;

pub use circuit::{Gate, Header, Latch};
pub use fault::AigKind;
pub use form::{Form, Limit};
pub use place::{COLUMN_PLACES, LATCH_PLACES};
