// The check of a table under a policy that has passed its own.
ghost use Rattle.std.specs.Prelude.{◌≡◌, ◌*◌, ◌≤◌, length};
ghost use Rattle.sums.specs.Code.{sums_of};
ghost use Rattle.words.specs.First.{first};
ghost use Rattle.format.specs.Layout.{block_bytes, block_records, table_blocks};
ghost use Rattle.format.specs.Block.{blocks};
ghost use Rattle.format.specs.Policy.{policy_of, stamp as stamp_in};
ghost use Rattle.format.specs.Table.{count, good_stamp, table_block_fault, table_fault, records_of};
ghost use Rattle.format.specs.Code.{fault_of};
ghost use Rattle.table_check.specs.CheckParts.{good_table_heading, good_table_head, records_fault, table_fault_in};

use crate::record::good_record;
use fields::field::{u16_at, u32_at, zero_from};
use fields::layout::{
    BLOCK_BYTES, COUNT_AT, KIND_AT, MOST_RULES, NUMBER_AT, RECORD_BYTES, RECORDS_AT, SPARE_AT,
    SPARE_BYTES, STAMP_AT, STAMP_B_AT, TABLE_BLOCKS, TABLE_KIND, TOTAL_AT,
};
use fields::tables::{Blocks, block, good_length};
use format::answer::Refusal;
use policy_check::block::good_check;
use policy_check::policy::Policy;
use rule_tests::bounds::{Bound, are_plain, bounds_of};
use rule_tests::shapes::{Shape, shapes_of};
use rule_tests::tests::{By, Tests};
use sums::sum::Sum;

// How many records a block says that it has.
fn count(b: &[u8; BLOCK_BYTES]) -> usize
    ensures { result ≡ count b.now }
{
    u16_at(b, COUNT_AT) as usize
}

// Kind, number, total and count of block k of n. Records may stand in it only if no block before it is short of one.
fn good_heading(b: &[u8; BLOCK_BYTES], k: u32, n: u32, short: bool) -> bool
    ensures { result ≡ good_table_heading short k n b.now }
{
    let count = count(b);
    (u32_at(b, KIND_AT) == TABLE_KIND)
        & (u16_at(b, NUMBER_AT) == k)
        & (u16_at(b, TOTAL_AT) == n)
        & (count <= Blocks::RECORDS)
        & !((count != 0) & short)
}

// The spare bytes too: those before the stamp, and those where no record stands.
fn good_header(b: &[u8; BLOCK_BYTES], k: u32, n: u32, short: bool) -> bool
    ensures { result ≡ good_table_head short k n b.now }
{
    if !good_heading(b, k, n, short) {
        return false;
    }
    let count = count(b);
    zero_from(b, SPARE_AT, SPARE_BYTES)
        & zero_from(
            b,
            RECORDS_AT + RECORD_BYTES * count,
            RECORD_BYTES * (Blocks::RECORDS - count),
        )
}

// The stamp is the policy's.
fn good_stamp(b: &[u8; BLOCK_BYTES], stamp: Sum) -> bool
    ensures { result ≡ good_stamp (sums_of stamp) b.now }
{
    (u32_at(b, STAMP_AT) == stamp.a) & (u32_at(b, STAMP_B_AT) == stamp.b)
}

// The first bad record of block k.
fn records_fault(tests: &Tests<'_>, b: &[u8; BLOCK_BYTES], k: u32) -> Result<(), Refusal>
    requires { count b.now ≤ block_records }
    ensures { fault_of result ≡ records_fault (policy_of tests.now.policy.image.now) k b.now }
{
    for i in 0..count(b) {
        if !good_record(tests, b, RECORDS_AT + RECORD_BYTES * i) {
            return Err(Refusal::Record(k, i as u32 + 1));
        }
    }
    Ok(())
}

// The first fault of block k of n, under a policy of that stamp.
fn block_fault(
    tests: &Tests<'_>,
    stamp: Sum,
    b: &[u8; BLOCK_BYTES],
    k: u32,
    n: u32,
    short: bool,
) -> Result<(), Refusal>
    ensures { fault_of result ≡ table_fault_in (policy_of tests.now.policy.image.now) (sums_of stamp) short k n b.now }
{
    if !good_check(b) {
        return Err(Refusal::TableCheck(k));
    }
    if !good_header(b, k, n, short) {
        return Err(Refusal::TableHeader(k));
    }
    if !good_stamp(b, stamp) {
        return Err(Refusal::Stamp(k));
    }
    records_fault(tests, b, k)
}

// The blocks in turn.
fn blocks_fault(tests: &Tests<'_>, stamp: Sum, table: &[u8]) -> Result<(), Refusal>
    requires { length table.now ≤ block_bytes * table_blocks }
    ensures { fault_of result ≡ first (table_block_fault (policy_of tests.now.policy.image.now) (sums_of stamp) table.now) 0 (blocks table.now) }
{
    let n = table.len() / BLOCK_BYTES;
    let mut short = false;
    for k in 0..n {
        let b = block(table, k);
        block_fault(tests, stamp, b, k as u32, n as u32, short)?;
        short = short | (count(b) < Blocks::RECORDS);
    }
    Ok(())
}

// The blocks in turn, under a policy that has a range: by the bounds of its rules, whose array a policy without one has no need of.
fn ranged_fault(policy: &Policy<'_>, stamp: Sum, table: &[u8]) -> Result<(), Refusal>
    requires { length table.now ≤ block_bytes * table_blocks }
    ensures { fault_of result ≡ first (table_block_fault (policy_of policy.now.image.now) (sums_of stamp) table.now) 0 (blocks table.now) }
{
    let mut bounds = [Bound::NONE; MOST_RULES as usize];
    bounds_of(policy, &mut bounds);
    let tests = Tests {
        policy: *policy,
        by: By::Bounds(&bounds),
    };
    blocks_fault(&tests, stamp, table)
}

// The check of any bytes as a table under a policy that has passed its own, by its stamp, which a call makes once.
pub fn table_fault(policy: &Policy<'_>, stamp: Sum, table: &[u8]) -> Result<(), Refusal>
    requires { sums_of stamp ≡ stamp_in policy.now.image.now }
    ensures { fault_of result ≡ table_fault policy.now.image.now table.now }
{
    if !good_length(table, TABLE_BLOCKS) {
        return Err(Refusal::TableLength);
    }
    if !are_plain(policy) {
        return ranged_fault(policy, stamp, table);
    }
    let mut shapes = [Shape::NONE; MOST_RULES as usize];
    shapes_of(policy, &mut shapes);
    let tests = Tests {
        policy: *policy,
        by: By::Shapes(&shapes),
    };
    blocks_fault(&tests, stamp, table)
}

// How many records a table has.
pub fn record_count(table: &[u8]) -> usize
    requires { length table.now ≤ block_bytes * table_blocks }
    ensures { result ≡ length (records_of table.now) }
{
    (0..table.len() / BLOCK_BYTES)
        .map(|k| count(block(table, k)))
        .sum()
}
