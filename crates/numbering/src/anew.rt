// Blocks numbered anew: each is copied to its place, gets its number there and the blocks in all, and is sealed again.
ghost use Rattle.std.specs.Prelude.{◌≡◌, ◌++◌, ◌+◌, ◌-◌, ◌*◌, ◌≤◌, ◌<◌, length, drop};
ghost use Rattle.format.specs.Layout.{block_bytes, policy_blocks};
ghost use Rattle.format.specs.Block.{blocks, block as block_at};
ghost use Rattle.format.specs.Policy.{rule_count};
ghost use Rattle.table_write.specs.Writing.{over};
ghost use Rattle.xml.specs.Blocks.{numbered_anew, image_of};
ghost use Rattle.numbering.specs.Numbered.{blocks_anew, together};

use fields::field::put_u16;
use fields::layout::{BLOCK_BYTES, NUMBER_AT, TOTAL_AT, WORD_BYTES};
use fields::tables::block;
use table_write::places::copy_words;
use table_write::write::put_check;

// ---- one block

// A block becomes block k of so many in all. Its check goes over both numbers, so it is made anew too.
fn number_block(block: &mut [u8; BLOCK_BYTES], total: usize, k: usize)
    requires { (k < 65536) × (total < 65536) }
    ensures { block.new ≡ numbered_anew total k block.old }
{
    put_u16(block, NUMBER_AT, k as u32);
    put_u16(block, TOTAL_AT, total as u32);
    put_check(block);
}

// Block i of one image becomes block j of another, numbered anew.
fn put_block(from: &[u8], i: usize, output: &mut [u8], j: usize, total: usize)
    requires block_bytes_in_bounds { (block_bytes * i + block_bytes ≤ length from.now) × (block_bytes * j + block_bytes ≤ length output.old) }
    requires j_bound { (j < 65536) × (total < 65536) }
    ensures { output.new ≡ over output.old (block_bytes * j) block_bytes (numbered_anew total j (block_at from.now i)) }
{
    let at = BLOCK_BYTES * j;
    copy_words(output, at, block(from, i), BLOCK_BYTES / WORD_BYTES);
    let (_, rest) = output.split_at_mut(at);
    let Some(place) = rest.first_chunk_mut() else {
        unreachable!()
    };
    number_block(place, total, j);
}

// ---- many

// The n blocks of an image from block `first` on become those from block `at` on of another.
fn put_blocks(from: &[u8], first: usize, n: usize, output: &mut [u8], at: usize, total: usize)
    requires n_in_bounds { (block_bytes * (first + n) ≤ length from.now) × (block_bytes * (at + n) ≤ length output.old) }
    requires n_bound { (at + n ≤ total) × (total < 65536) }
    ensures { output.new ≡ over output.old (block_bytes * at) (block_bytes * n) (blocks_anew total at from.now first n) }
{
    for i in 0..n {
        put_block(from, first + i, output, at + i, total);
    }
}

// Writes the image of the first blocks of `kept`, as many as there are rules, and of the blocks of `second` behind its own rules, and says how long
// it is.
pub fn write_image(
    kept: &[u8],
    rules: usize,
    second: &[u8],
    first: usize,
    output: &mut [u8],
) -> usize
    requires rules_in_bounds { (block_bytes * rules ≤ length kept.now) × (first ≤ blocks second.now) × (first ≡ rule_count second.now) }
    requires first_bound { (rules + (blocks second.now - first) ≤ policy_blocks) × (block_bytes * (rules + (blocks second.now - first)) ≤ length output.old) }
    ensures { (output.new ≡ image_of (together kept.now rules second.now) ++ drop (length (image_of (together kept.now rules second.now))) output.old) × (result ≡ length (image_of (together kept.now rules second.now))) × (result ≡ block_bytes * length (together kept.now rules second.now)) }
{
    let others = second.len() / BLOCK_BYTES - first;
    let total = rules + others;
    put_blocks(kept, 0, rules, output, 0, total);
    put_blocks(second, first, others, output, rules, total);
    BLOCK_BYTES * total
}
