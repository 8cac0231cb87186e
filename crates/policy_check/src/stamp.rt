// The stamp of a policy that has passed. A good check is the sums over the other words of its block, so the checks are all that is read.
ghost use Rattle.std.specs.Prelude.{◌≡◌, true};
ghost use Rattle.std.proofs.Math.Option.{none};
ghost use Rattle.words.specs.Sums.{add_words, words};
ghost use Rattle.format.specs.Block.{good_check};
ghost use Rattle.format.specs.Policy.{policy_fault, stamp};
ghost use Rattle.sums.specs.Code.{sums_of};

use fields::field::u32_at;
use fields::layout::{BLOCK_BYTES, CHECK_AT, CHECK_B_AT};
use fields::tables::block;
use sums::sum::Sum;

// The sums over one block more.
fn add_block(sum: Sum, b: &[u8; BLOCK_BYTES]) -> Sum
    requires { good_check b.now ≡ true }
    ensures { sums_of result ≡ add_words (sums_of sum) (words b.now) }
{
    let check = Sum {
        a: u32_at(b, CHECK_AT),
        b: u32_at(b, CHECK_B_AT),
    };
    sum.add_checked(check).add(check.a).add(check.b)
}

// The sums over all blocks.
pub fn stamp_of(s: &[u8]) -> Sum
    requires { policy_fault s.now ≡ none }
    ensures { sums_of result ≡ stamp s.now }
{
    let total = s.len() / BLOCK_BYTES;
    let mut sum = Sum { a: 1, b: 0 };
    for k in 0..total {
        sum = add_block(sum, block(s, k));
    }
    sum
}
