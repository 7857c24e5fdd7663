// What a line of the cache holds.
ghost use Rattle.std.specs.Prelude.{◌≡◌};
ghost use Rattle.cache.specs.Lines.{held, waiting};

#[derive(Clone, Copy)]
pub enum Line {
    Empty,
    Clean(usize),
    Dirty(usize),
}

impl Line {
    // No equality of lines: a clean and a dirty line hold alike.
    pub fn holds(self, sector: usize) -> bool
        ensures { result ≡ held self sector }
    {
        match self {
            Line::Empty => false,
            Line::Clean(h) | Line::Dirty(h) => h == sector,
        }
    }

    // The sector that waits to be written down, if one does.
    pub fn waiting(self) -> Option<usize>
        ensures { result ≡ waiting self }
    {
        match self {
            Line::Empty | Line::Clean(_) => None,
            Line::Dirty(h) => Some(h),
        }
    }
}
