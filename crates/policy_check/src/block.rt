// The check of a block.
ghost use Rattle.std.specs.Prelude.{◌≡◌};
ghost use Rattle.format.specs.Block.{good_check};

use fields::field::u32_at;
use fields::layout::{BLOCK_BYTES, CHECK_AT, CHECK_B_AT, CHECKED_WORDS};
use sums::sum::sum_words;

// The check of a block: the two sums over the words before it.
pub fn good_check(b: &[u8; BLOCK_BYTES]) -> bool
    ensures { result ≡ good_check b.now }
{
    let sum = sum_words(b, 0, CHECKED_WORDS);
    (sum.a == u32_at(b, CHECK_AT)) & (sum.b == u32_at(b, CHECK_B_AT))
}
