// Tables written: a block's header, zeros and check around the records that stand in it, and a table block by block.
ghost use Rattle.std.specs.Prelude.{◌≡◌, true, [], ◌+◌, ◌*◌, ◌≤◌, ◌<◌, length, take};
ghost use Rattle.words.specs.Lists.{tab};
ghost use Rattle.words.specs.Bytes.{zeros};
ghost use Rattle.sums.specs.Code.{sums_of};
ghost use Rattle.format.specs.Layout.{block_bytes, check_at, spare_at, records_at, block_records, table_blocks};
ghost use Rattle.format.specs.Block.{blocks, block as block_at, good_length, sum_bytes, sealed};
ghost use Rattle.format.specs.Table.{record_at, block_image, table_image};
ghost use Rattle.format.specs.Records.{records_here};
ghost use Rattle.table_write.specs.Writing.{over, numbers_image, header_image, count_in, ImageBut, size_of};

use fields::blocks::BlockSet;
use fields::field::{put_u16, put_u32};
use fields::layout::{
    BLOCK_BYTES, CHECK_AT, CHECKED_WORDS, COUNT_AT, KIND_AT, NUMBER_AT, RECORD_BYTES, RECORDS_AT,
    SPARE_AT, SPARE_BYTES, STAMP_AT, TABLE_KIND, TOTAL_AT,
};
use fields::tables::Blocks;
use sums::sum::{Sum, sum_words};

// ---- one block

// A block's first 10 bytes: its kind, its number, the blocks in all, its records.
fn put_numbers(block: &mut [u8; BLOCK_BYTES], total: usize, k: usize, count: usize)
    requires { (k < 65536) × (total < 65536) × (count < 65536) }
    ensures { block.new ≡ over block.old 0 spare_at (numbers_image total k count) }
{
    put_u32(block, KIND_AT, TABLE_KIND);
    put_u16(block, NUMBER_AT, k as u32);
    put_u16(block, TOTAL_AT, total as u32);
    put_u16(block, COUNT_AT, count as u32);
}

// Zeros n bytes.
pub fn zero_fill(s: &mut [u8], at: usize, n: usize)
    requires { at + n ≤ length s.old }
    ensures { s.new ≡ over s.old at n (zeros n) }
{
    s[at..at + n].fill(0);
}

// Puts two sums, a and then b, as a stamp or a check has them.
fn put_sums(s: &mut [u8], at: usize, sum: Sum)
    requires { at + 8 ≤ length s.old }
    ensures { s.new ≡ over s.old at 8 (sum_bytes (sums_of sum)) }
{
    put_u32(s, at, sum.a);
    put_u32(s, at + 4, sum.b);
}

// A block's first 24 bytes.
fn put_header(block: &mut [u8; BLOCK_BYTES], stamp: Sum, total: usize, k: usize, count: usize)
    requires { (k < 65536) × (total < 65536) × (count < 65536) }
    ensures { block.new ≡ over block.old 0 records_at (header_image (sums_of stamp) total k count) }
{
    put_numbers(block, total, k, count);
    zero_fill(block, SPARE_AT, SPARE_BYTES);
    put_sums(block, STAMP_AT, stamp);
}

// A block's check, over the words before it.
pub fn put_check(block: &mut [u8; BLOCK_BYTES])
    ensures { block.new ≡ sealed (take check_at block.old) }
{
    let sum = sum_words(block, 0, CHECKED_WORDS);
    put_sums(block, CHECK_AT, sum);
}

// Block k of a table, made of the records that stand in it.
fn seal(block: &mut [u8; BLOCK_BYTES], stamp: Sum, total: usize, k: usize, count: usize)
    requires { (k < total) × (total ≤ table_blocks) × (count ≤ block_records) }
    ensures { block.new ≡ block_image (sums_of stamp) total k (tab (record_at block.old) 0 count) }
{
    put_header(block, stamp, total, k, count);
    let end = RECORDS_AT + RECORD_BYTES * count;
    zero_fill(block, end, CHECK_AT - end);
    put_check(block);
}

// The same of a block that stands in a table.
pub fn seal_block(table: &mut [u8], stamp: Sum, total: usize, k: usize, count: usize)
    requires table_len { length table.old ≡ block_bytes * total }
    requires k_lt_total { (k < total) × (total ≤ table_blocks) × (count ≤ block_records) }
    ensures { table.new ≡ over table.old (block_bytes * k) block_bytes (block_image (sums_of stamp) total k (tab (record_at (block_at table.old k)) 0 count)) }
{
    let at = BLOCK_BYTES * k;
    let (_, rest) = table.split_at_mut(at);
    let Some(block) = rest.first_chunk_mut() else {
        unreachable!()
    };
    seal(block, stamp, total, k, count);
}

// ---- a table

// How many of n records stand in block k.
fn records_in(n: usize, k: usize) -> usize
    requires { k < table_blocks }
    ensures { result ≡ count_in n k }
{
    Blocks::RECORDS.min(n.saturating_sub(Blocks::RECORDS * k))
}

// Writes the blocks of a set around the n records that stand in a table that is an image everywhere else, and says how many it wrote.
// A block is written because its records differ: the caller says which do.
pub fn seal_blocks(table: &mut [u8], stamp: Sum, n: usize, changed: BlockSet) -> usize
    requires table_len { (length table.old ≡ block_bytes * blocks table.old) × (blocks table.old ≤ table_blocks) }
    requires image_but { ImageBut (sums_of stamp) table.old n changed }
    ensures { (table.new ≡ table_image (sums_of stamp) (blocks table.old) (records_here table.old n)) × (result ≡ size_of (blocks table.old) changed) }
{
    let total = table.len() / BLOCK_BYTES;
    let mut written = 0usize;
    for k in 0..total {
        if changed.has(k) {
            seal_block(table, stamp, total, k, records_in(n, k));
            written += 1;
        }
    }
    written
}

// A table of as many blocks as the buffer has room for, with no record. All of them are written: what was there need not have been a table.
pub fn fresh(table: &mut [u8], stamp: Sum) -> usize
    requires { good_length table_blocks table.old ≡ true }
    ensures { (table.new ≡ table_image (sums_of stamp) (blocks table.old) []) × (result ≡ blocks table.old) }
{
    let total = table.len() / BLOCK_BYTES;
    seal_blocks(table, stamp, 0, BlockSet::none().with_range(0, total))
}
