// What a storage says where it declines a call.
ghost use Rattle.std.specs.Prelude.{◌≡◌, List, [], ◌∷◌, Some};
ghost use Rattle.storage.specs.Refusals.{Step, spelled, step, nth, steps, number, bad_mount, printed, chain_of};

use std::fmt;

// What the kinds of storage are called; a kind of another crate is `Other`.
#[derive(Clone, Copy, PartialEq, Eq, Debug)]
pub enum Name {
    Image,
    Sector,
    Partition,
    Cache,
    Other,
}

impl Name {
    // The one place that spells the names; Display rests on it.
    pub fn text(self) -> &'static str
        ensures { result.now ≡ spelled self }
    {
        match self {
            Name::Image => "image",
            Name::Sector => "sector",
            Name::Partition => "partition",
            Name::Cache => "cache",
            Name::Other => "other",
        }
    }

    // The link of a storage of this name that was called with an offset.
    pub fn at(self, offset: usize) -> Link
        ensures { step result ≡ record { name = spelled self; offset = offset } }
    {
        Link { name: self, offset }
    }
}

impl fmt::Display for Name {
    ghost output = { λ n. Some (spelled n) };

    fn fmt<W: fmt::Write>(&self, f: &mut fmt::Formatter<W>) -> fmt::Result {
        f.write_str(self.text())
    }
}

// One storage on the way down: its name, and the offset that it was called with.
#[derive(Clone, Copy, PartialEq, Eq, Debug)]
pub struct Link {
    pub name: Name,
    pub offset: usize,
}

impl fmt::Display for Link {
    ghost output = { λ l. Some (printed l) };

    fn fmt<W: fmt::Write>(&self, f: &mut fmt::Formatter<W>) -> fmt::Result {
        write!(f, "({} {})", self.name, self.offset)
    }
}

// A fault that lists the storages it came through, from the top.
pub trait Chain {
    ghost links: { Self → List Step };

    fn link(&self, i: usize) -> Option<Link>
        ensures { steps result ≡ nth (links self.now) i };
}

// The fault of a storage that has none below.
impl Chain for Link {
    ghost links = { λ l. step l ∷ [] };

    fn link(&self, i: usize) -> Option<Link> {
        (i == 0).then_some(*self)
    }
}

// The fault of a layer: its own link, and the fault of the storage below, whole.
#[derive(Debug, Drop)]
pub struct LayerFault<F> {
    pub link: Link,
    pub below: F,
}

impl<F: Chain> Chain for LayerFault<F> {
    ghost links = { λ f. step f.link ∷ F.Chain.links f.below };

    fn link(&self, i: usize) -> Option<Link> {
        match i {
            0 => Some(self.link),
            _ => self.below.link(i - 1),
        }
    }
}

// Why a storage declined: the range passes its size, or it does not live.
#[derive(Debug, Drop)]
pub enum Refusal<O, G> {
    Outside(O),
    Gone(G),
}

impl<O, G> Refusal<O, G> {
    // Its number in the table of refusals, which programs print. Nothing is generic over refusals, so
    // there is no trait for it.
    pub fn number(&self) -> u8
        ensures { result ≡ number self.now }
    {
        match self {
            Refusal::Outside(_) => 1,
            Refusal::Gone(_) => 2,
        }
    }
}

// What a refusal lists is what its fault lists.
impl<O: Chain, G: Chain> Chain for Refusal<O, G> {
    ghost links = { chain_of O.Chain.links G.Chain.links };

    fn link(&self, i: usize) -> Option<Link> {
        match self {
            Refusal::Outside(fault) => fault.link(i),
            Refusal::Gone(fault) => fault.link(i),
        }
    }
}

// A mount or a cut that was declined, with what it was given.
#[derive(Debug, Drop)]
pub struct BadMount<T> {
    pub given: T,
}

impl<T> BadMount<T> {
    // Its number in the table of refusals, which programs print.
    pub fn number(&self) -> u8
        ensures { result ≡ bad_mount }
    {
        3
    }
}
