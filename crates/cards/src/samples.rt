// Cards of 8,192 bytes: a header, some bytes behind it, and zeros.
use ring::header::Header;
use std::alloc::{AllocError, Global};

const SIZE: usize = 8_192;

#[derive(Clone, Copy)]
pub struct Sample {
    pub file: &'static str,
    header: Header,
    behind: &'static [u8],
}

impl Sample {
    pub fn card(self, heap: Global) -> Result<Vec<u8>, AllocError> {
        let mut card = vec![in heap]?;
        card.extend_from_slice(&self.header.cell())?;
        card.extend_from_slice(self.behind)?;
        card.resize(SIZE, 0)?;
        Ok(card)
    }
}

const fn make(file: &'static str, header: [u32; 4], behind: &'static [u8]) -> Sample {
    let [ring, count, first, last] = header;
    Sample {
        file,
        header: Header {
            ring,
            count,
            first,
            last,
        },
        behind,
    }
}

// The elements of 66 69 and 2a 2a 2a.
const TWO: &[u8] = &[0, 0, 0, 2, 0x66, 0x69, 0, 0, 0, 3, 0x2a, 0x2a, 0x2a];

pub fn samples() -> [Sample; 10] {
    [
        make("two_records.card", [4_096, 2, 16, 22], TWO),
        make(
            "fills_the_ring.card",
            [4_096, 1, 16, 16],
            &[0, 0, 0x0f, 0xec],
        ),
        make(
            "wraps_in_a_length.card",
            [4_096, 1, 4_094, 4_094],
            &[0, 2, 0x66, 0x69],
        ),
        make("empty_with_a_first.card", [4_096, 0, 16, 0], &[]),
        make("first_in_the_header.card", [4_096, 1, 15, 15], &[]),
        make("ring_of_6144.card", [6_144, 0, 0, 0], &[]),
        make("ring_past_the_card.card", [16_384, 0, 0, 0], &[]),
        make(
            "a_byte_too_long.card",
            [4_096, 1, 16, 16],
            &[0, 0, 0x0f, 0xed],
        ),
        make("record_of_65536.card", [8_192, 1, 16, 16], &[0, 1, 0, 0]),
        make("last_is_elsewhere.card", [4_096, 2, 16, 16], TWO),
    ]
}
