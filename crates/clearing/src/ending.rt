// What a grant takes from the marks of records: the rules that end, and where their records are.
ghost use Rattle.std.specs.Prelude.{◌≡◌, ℕ, ◌+◌, ◌*◌, ◌/◌, ◌<◌, ◌≤◌, min, length};
ghost use Rattle.format.specs.Layout.{record_bytes, block_records, table_blocks, capacity};
ghost use Rattle.format.specs.Records.{record_from};
ghost use Rattle.clearing.specs.Cleared.{cleared_by};

use fields::blocks::BlockSet;
use fields::layout::REQUEST_BYTES;
use fields::request;
use fields::sets::RuleSet;
use fields::tables::Blocks;
use matching::masks::{Each, together_of};

// The rules that end, the masks that tell their run places apart, and blocks outside which no record is in the request's run place of one of them.
#[derive(Clone, Copy)]
pub struct Ending {
    pub rules: RuleSet,
    pub each: Each,
    pub near: BlockSet,
}

// The marks that the record at a byte keeps: it loses those of the rules that end in its run place.
pub fn cleared_marks(ending: Ending, q: &[u8; REQUEST_BYTES], table: &[u8], at: usize) -> RuleSet
    requires { at + record_bytes ≤ length table.now }
    ensures { result.0 ≡ (cleared_by ending.each q.now ending.rules.0 (record_from table.now at)).marks }
{
    request::marks(table, at).without(together_of(ending.each, ending.rules, q, table, at))
}

// The place behind the block of place i, or n.
pub fn block_end(i: usize, n: usize) -> usize
    requires { (i < n) × (n ≤ capacity table_blocks) }
    ensures { (i < result) × (result ≤ n) × ((k : ℕ) → i ≤ k → k < result → k / block_records ≡ i / block_records) × (result ≡ min n (block_records * (i / block_records + 1))) }
{
    n.min(Blocks::RECORDS * (i / Blocks::RECORDS + 1))
}
