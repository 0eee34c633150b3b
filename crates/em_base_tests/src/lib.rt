//! Tests of the crates on which lists and trees stand, by calls that any user may make.
#![tactic(auto)]

#[cfg(test)]
mod answers;
#[cfg(test)]
mod bits;
#[cfg(test)]
mod blocks;
#[cfg(test)]
mod cells;
#[cfg(test)]
mod files;
#[cfg(test)]
mod frames;
#[cfg(test)]
mod heaps;
#[cfg(test)]
mod joined;
#[cfg(test)]
mod lines;
#[cfg(test)]
mod made;
#[cfg(test)]
mod scripts;
#[cfg(test)]
mod settled;
#[cfg(test)]
mod shapes;
#[cfg(test)]
mod texts;
#[cfg(test)]
mod words;
