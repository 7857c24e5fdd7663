// Examples on small cards: what a mount refuses, what a range past the size gets, how a life
// ends, what each choice of a cut leaves, and how faults come up through stacks of layers.
#![tactic(auto)]

#[cfg(test)]
mod image;
#[cfg(test)]
mod memory;
#[cfg(test)]
mod sector;
#[cfg(test)]
mod stack;

use storage::refusal::Refusal;

// The number of the refusal, where a call was declined.
pub fn refused<O: Drop, G: Drop>(answer: Result<(), Refusal<O, G>>) -> Option<u8> {
    answer.err().map(|refusal| refusal.number())
}
