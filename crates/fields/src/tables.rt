// Images as blocks: which lengths are whole blocks, how many records blocks hold, and where each record begins.
ghost use Rattle.std.specs.Prelude.{◌≡◌, ◌+◌, ◌*◌, ◌≤◌, length};
ghost use Rattle.format.specs.Layout.{block_bytes, capacity as capacity_of, table_blocks};
ghost use Rattle.format.specs.Block.{block, good_length};
ghost use Rattle.format.specs.Records.{record_start};

use crate::layout::{BLOCK_BYTES, RECORD_BYTES, RECORDS_AT};

// The length is 512 times 1 to a limit.
pub fn good_length(s: &[u8], most: usize) -> bool
    ensures { result ≡ good_length most s.now }
{
    let n = s.len() / BLOCK_BYTES;
    (BLOCK_BYTES * n == s.len()) & (1 <= n) & (n <= most)
}

// Block k of an image.
pub fn block(image: &[u8], k: usize) -> &[u8; BLOCK_BYTES]
    requires { block_bytes * k + block_bytes ≤ length image.now }
    ensures { result.now ≡ block image.now k }
{
    let at = BLOCK_BYTES * k;
    let Ok(bytes) = image[at..at + BLOCK_BYTES].try_into() else {
        unreachable!()
    };
    bytes
}

// A number of table blocks.
#[derive(Clone, Copy)]
pub struct Blocks(pub usize);

impl Blocks {
    // The records that a block can have.
    pub const RECORDS: usize = 15;

    // "A table of B blocks holds at most 15 times B records."
    pub fn capacity(self) -> usize
        requires { self.0 ≤ table_blocks }
        ensures { result ≡ capacity_of self.0 }
    {
        Blocks::RECORDS * self.0
    }
}

// The byte at which record i begins, from 0.
pub fn record_start(i: usize) -> usize
    requires { i ≤ capacity_of table_blocks }
    ensures { result ≡ record_start i }
{
    BLOCK_BYTES * (i / Blocks::RECORDS) + RECORDS_AT + RECORD_BYTES * (i % Blocks::RECORDS)
}
