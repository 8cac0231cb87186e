// How many records the new table holds, and whether there is room for them: those that keep a mark are counted only where they have to be.
ghost use Rattle.std.specs.Prelude.{◌≡◌, ◌+◌, ◌≤◌, length, leb};
ghost use Rattle.format.specs.Records.{records_here};
ghost use Rattle.fields.specs.Code.{HasRoom};
ghost use Rattle.clearing.specs.Cleared.{left_of, after_of, Ready};

use crate::ending::{Ending, block_end, cleared_marks};
use fields::layout::REQUEST_BYTES;
use fields::sets::RuleSet;
use fields::tables::{Blocks, record_start};

// How many of the records from one place up to another keep a mark.
fn kept_between(
    ending: Ending,
    q: &[u8; REQUEST_BYTES],
    table: &[u8],
    from: usize,
    to: usize,
) -> usize
    requires { (from ≤ to) × (HasRoom table.now to) }
    ensures { length (left_of ending q.now (records_here table.now to)) ≡ length (left_of ending q.now (records_here table.now from)) + result }
{
    (from..to)
        .filter(|i| !cleared_marks(ending, q, table, record_start(*i)).is_empty())
        .count()
}

// How many of the n records keep a mark. Where no rule ends all of them do; else they are counted block by block, and one by one where one may lose some.
fn kept(ending: Ending, q: &[u8; REQUEST_BYTES], table: &[u8], n: usize) -> usize
    requires { Ready ending q.now table.now n }
    ensures { result ≡ length (left_of ending q.now (records_here table.now n)) }
{
    if ending.rules.is_empty() {
        return n;
    }
    let mut count = 0usize;
    for k in 0..n.div_ceil(Blocks::RECORDS) {
        let from = Blocks::RECORDS * k;
        let to = block_end(from, n);
        if ending.near.has(k) {
            count += kept_between(ending, q, table, from, to);
        } else {
            count += to - from;
        }
    }
    count
}

// How many records the table then holds: those that are left, and the request if it has a mark.
pub fn held_after(
    ending: Ending,
    gives: RuleSet,
    q: &[u8; REQUEST_BYTES],
    table: &[u8],
    n: usize,
) -> usize
    requires { Ready ending q.now table.now n }
    ensures { result ≡ length (after_of ending gives q.now (records_here table.now n)) }
{
    let left = kept(ending, q, table, n);
    if gives.is_empty() {
        return left;
    }
    left + 1
}

// They are no more than there is room for.
pub fn has_room(
    ending: Ending,
    gives: RuleSet,
    q: &[u8; REQUEST_BYTES],
    table: &[u8],
    n: usize,
    room: usize,
) -> bool
    requires ready { Ready ending q.now table.now n }
    requires n_le_room { n ≤ room }
    ensures { result ≡ leb (length (after_of ending gives q.now (records_here table.now n))) room }
{
    if gives.is_empty() {
        return true;
    }
    if n < room {
        return true;
    }
    kept(ending, q, table, n) < room
}
