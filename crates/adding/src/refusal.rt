// What an add declines.
ghost use Rattle.std.specs.Prelude.{◌≡◌};
ghost use Rattle.adding.specs.Refusals.{number};

// A record that is too long, with its length; a card that is full, with the bytes that the record
// would take; a storage that is gone, with its fault.
#[derive(Debug, Drop)]
pub enum AddRefusal<F> {
    TooLong(usize),
    Full(usize),
    Gone(F),
}

impl<F> AddRefusal<F> {
    // Its number in the table of refusals; the code knows refusals by this enum.
    pub fn number(&self) -> u8
        ensures { result ≡ number self.now }
    {
        match self {
            AddRefusal::TooLong(_) => 7,
            AddRefusal::Full(_) => 6,
            AddRefusal::Gone(_) => 2,
        }
    }
}
