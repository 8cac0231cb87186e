// The rules that have ended.
ghost use Rattle.std.specs.Prelude.{◌≡◌, ◌*◌, ◌≤◌, ◌<◌};
ghost use Rattle.format.specs.Layout.{block_bytes, most_rules};
ghost use Rattle.table_write.specs.Writing.{over};

use fields::layout::{BLOCK_BYTES, MOST_RULES, WORD_BYTES};
use table_write::places::copy_words;

// The bytes of as many rules as there may be.
pub const KEPT_BYTES: usize = BLOCK_BYTES * MOST_RULES as usize;

// Keeps the block of a rule that has ended as block k. A rule past the last that there may be has no place: the caller counts it.
pub fn keep_rule(image: &mut [u8; KEPT_BYTES], k: usize, d: &[u8; BLOCK_BYTES])
    ensures { (k < most_rules → image.new ≡ over image.old (block_bytes * k) block_bytes d.now) × (most_rules ≤ k → image.new ≡ image.old) }
{
    if k < MOST_RULES as usize {
        copy_words(image, BLOCK_BYTES * k, d, BLOCK_BYTES / WORD_BYTES);
    }
}
