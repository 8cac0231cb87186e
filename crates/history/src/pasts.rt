// The past of one rule: what the user did in its run place, as the tallies of its exclusions take it in.
ghost use Rattle.std.specs.Prelude.{◌≡◌, ℕ, ◌+◌, ◌<◌, ◌≤◌, length, take, map, get_or};
ghost use Rattle.format.specs.Layout.{record_bytes, most_rules};
ghost use Rattle.format.specs.Records.{record_from};
ghost use Rattle.tally.specs.Code.{deed_of};
ghost use Rattle.history.specs.Code.{stands_by, past_by};

use fields::layout::REQUEST_BYTES;
use fields::request;
use matching::masks::{Each, apart};
use tally::deed::Deed;

// The record at a byte is marked for rule i and stands in the request's run place.
fn stands_in(each: Each, i: u32, q: &[u8; REQUEST_BYTES], table: &[u8], at: usize) -> bool
    requires { (at + record_bytes ≤ length table.now) × (i < most_rules) }
    ensures { result ≡ stands_by each q.now i (record_from table.now at) }
{
    request::marks(table, at).has(i) && !apart(each, q, table, at).has(i)
}

// Puts down what was done in those of the records found that count for rule i, and says how many they are.
pub fn past_of(
    each: Each,
    i: u32,
    q: &[u8; REQUEST_BYTES],
    table: &[u8],
    found: &[u16],
    past: &mut [Deed],
) -> usize
    requires i_bound { (i < most_rules) × (length found.now ≤ length past.old) }
    requires by_index { (j : ℕ) → j < length found.now → get_or found.now j 0 + record_bytes ≤ length table.now }
    ensures { (result ≤ length found.now) × (take result past.new ≡ map deed_of (past_by each q.now i table.now found.now)) × (length past.new ≡ length past.old) }
{
    let mut count = 0usize;
    for start in found {
        let at = usize::from(*start);
        if stands_in(each, i, q, table, at) {
            past[count] = Deed::read(table, at);
            count += 1;
        }
    }
    count
}
