// What a layer answers by itself, and what it makes of an answer from below.
ghost use Rattle.storage.specs.Layers.{OnRange, Lifts};
ghost use Rattle.storage.specs.Refusals.{spelled};

use crate::refusal::{LayerFault, Link, Name, Refusal};
use crate::sizes::passes;

// Declines a range that passes the size.
pub fn check_range<G>(
    name: Name,
    size: usize,
    offset: usize,
    count: usize,
) -> Result<(), Refusal<Link, G>>
    ensures { OnRange (spelled name) size offset count result }
{
    // The one place where a range is declined; `passes` is a bool, since a partition asks it too.
    if passes(size, offset, count) {
        return Err(Refusal::Outside(name.at(offset)));
    }
    Ok(())
}

// The answer with the layer's own link on top of a fault from below, which is carried whole.
pub fn lift<G>(
    name: Name,
    offset: usize,
    answer: Result<(), G>,
) -> Result<(), Refusal<Link, LayerFault<G>>>
    ensures { Lifts (spelled name) offset answer result }
{
    answer.map_err(|below| {
        Refusal::Gone(LayerFault {
            link: name.at(offset),
            below,
        })
    })
}
