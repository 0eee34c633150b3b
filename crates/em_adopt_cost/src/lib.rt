//! How many moves a tree makes that was adopted, one that came whole, with records that were never pushed, over plain numbers.
//! The crate has definitions and laws alone, and no code.
#![tactic(auto)]
