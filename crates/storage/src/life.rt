// How many more steps a storage serves before it is gone.
ghost use Rattle.std.specs.Prelude.{◌≡◌};
ghost use Rattle.storage.specs.Lives.{spent};

// No Option: `None` would read as no life, which is what `spend` says by it.
#[derive(Clone, Copy, PartialEq, Eq, Debug)]
pub enum Life {
    Endless,
    Left(u64),
}

impl Life {
    // What is left after one step more; none where no step is left.
    pub fn spend(self) -> Option<Life>
        ensures { result ≡ spent self }
    {
        match self {
            Life::Endless => Some(Life::Endless),
            Life::Left(steps) => steps.checked_sub(1).map(Life::Left),
        }
    }
}
