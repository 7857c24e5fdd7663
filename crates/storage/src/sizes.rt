// The sizes that a storage is made of.
ghost use Rattle.std.specs.Prelude.{◌≡◌, ◌+◌, ◌-◌, ◌%◌, min, true, false, Decides, nat_lt};
ghost use Rattle.storage.specs.Sizes.{SizeRule, sector_width};

// The bytes that arrive together or not at all, where a write covers them all.
pub const CELL: usize = 16;

pub const SECTOR: usize = 512;

const LEAST_SIZE: usize = 4_096;

const MOST_SIZE: usize = 16_777_216;

pub fn keeps_size_rule(size: usize) -> bool
    ensures { Decides result (SizeRule size) }
{
    size % SECTOR == 0 && (LEAST_SIZE..=MOST_SIZE).contains(&size)
}

// Whether a range passes the size. No sum is formed, so none is too large.
pub fn passes(size: usize, offset: usize, count: usize) -> bool
    ensures { result ≡ nat_lt size (offset + count) }
{
    offset > size || count > size - offset
}

// How many of the bytes that are left lie in the sector of an offset.
pub fn in_sector(at: usize, rest: usize) -> usize
    ensures { result ≡ min (sector_width - at % sector_width) rest }
{
    (SECTOR - at % SECTOR).min(rest)
}
