// What opening declines.
ghost use Rattle.std.specs.Prelude.{◌≡◌};
ghost use Rattle.card.specs.Refusals.{number, GoneMapped};
ghost use Rattle.card.specs.declared.refusal.OpenRefusal.TheVariants.{BrokenRecord as Broken};

use ring::walk::BrokenRecord;

// A storage that is gone, with its fault; a header that can't be; an element that can't be, with
// its place.
#[derive(Debug, Drop)]
pub enum OpenRefusal<F> {
    Gone(F),
    NotAQueue,
    BrokenRecord(usize),
}

impl<F> From<BrokenRecord> for OpenRefusal<F> {
    ghost from_gives = { λ e r. r ≡ Broken e.at };

    fn from(broken: BrokenRecord) -> OpenRefusal<F> {
        OpenRefusal::BrokenRecord(broken.at)
    }
}

impl<F> OpenRefusal<F> {
    // The same refusal, with its fault changed.
    pub fn map_gone<G, M: FnOnce(F) -> G>(self, change: M) -> OpenRefusal<G>
        requires { M.IsAlwaysCallable change }
        ensures { GoneMapped (M.post change) self result }
    {
        match self {
            OpenRefusal::Gone(fault) => OpenRefusal::Gone(change(fault)),
            OpenRefusal::NotAQueue => OpenRefusal::NotAQueue,
            OpenRefusal::BrokenRecord(at) => OpenRefusal::BrokenRecord(at),
        }
    }

    // Its number in the table of refusals, which programs print.
    pub fn number(&self) -> u8
        ensures { result ≡ number self.now }
    {
        match self {
            OpenRefusal::Gone(_) => 2,
            OpenRefusal::NotAQueue => 4,
            OpenRefusal::BrokenRecord(_) => 5,
        }
    }
}
