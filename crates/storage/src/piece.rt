// The parts of a range that lie in one sector each.
ghost use Rattle.std.specs.Prelude.{◌+◌, ◌^◌, ◌<◌, ◌≤◌};

// A part of a range, by where it begins and ends within the range.
#[derive(Clone, Copy, PartialEq, Eq, Debug)]
pub struct Piece {
    pub from: usize,
    pub to: usize,
}

// The pieces of a range that are to come, in rising order.
#[derive(Drop)]
pub struct Pieces {
    pub offset: usize,
    pub count: usize,
    pub done: usize,
    ghost within: { done ≤ count },
    ghost small: { offset + count < 2 ^ 64 },
}
