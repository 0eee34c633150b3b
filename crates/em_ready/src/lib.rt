//! What a run finds: a rig of which no block is or was in use, and a queue that it makes there. It is
//! definitions and laws alone.
#![tactic(auto)]
