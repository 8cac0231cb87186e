// One pass over the records, for all the rules that a request fits: which of their run places are open, and which of the user's records may count.
ghost use Rattle.std.specs.Prelude.{◌≡◌, ◌+◌, ◌≤◌, length, take};
ghost use Rattle.words.specs.Bytes.{part};
ghost use Rattle.format.specs.Layout.{request_bytes, record_bytes};
ghost use Rattle.format.specs.Records.{record_from, records_here};
ghost use Rattle.judge.specs.Tally.{same_user};
ghost use Rattle.fields.specs.Code.{HasRoom};
ghost use Rattle.matching.specs.Masks.{NearOf};
ghost use Rattle.history.specs.Code.{shared_by, open_by, found_in};

use fields::blocks::BlockSet;
use fields::layout::REQUEST_BYTES;
use fields::number::User;
use fields::request;
use fields::sets::RuleSet;
use fields::tables::{Blocks, record_start};
use matching::masks::{Each, together};

// The request at a byte is this user's.
pub fn same_user(s: &[u8], at: usize, who: User) -> bool
    requires { at + request_bytes ≤ length s.now }
    ensures { result ≡ same_user who.0 (part s.now at request_bytes) }
{
    request::user(s, at) == who
}

// The rules of a set for which the record at a byte is marked and stands in the request's run place.
pub fn shared_at(
    each: Each,
    rules: RuleSet,
    q: &[u8; REQUEST_BYTES],
    table: &[u8],
    at: usize,
) -> RuleSet
    requires { at + record_bytes ≤ length table.now }
    ensures { result.0 ≡ shared_by each rules.0 q.now (record_from table.now at) }
{
    together(each, request::marks(table, at).and(rules), q, table, at)
}

// What the pass finds: the rules whose run place is open, the blocks that have a record there, and how many records may count.
#[derive(Clone, Copy)]
pub struct Found {
    pub open: RuleSet,
    pub near: BlockSet,
    pub count: usize,
}

// Goes over the n records of a table. The byte at which a record begins is put down if it is the user's and shares a run place. What is
// open is told apart from what counts, so that another image can be counted that opens nothing.
pub fn find(
    each: Each,
    fitting: RuleSet,
    q: &[u8; REQUEST_BYTES],
    table: &[u8],
    n: usize,
    found: &mut [u16],
) -> Found
    requires found_len { n ≤ length found.old }
    requires has_room { HasRoom table.now n }
    ensures { (result.open.0 ≡ open_by each fitting.0 q.now (records_here table.now n)) × (NearOf each fitting.0 q.now table.now n result.near) × (result.count ≤ n) × (take result.count found.new ≡ found_in each fitting.0 q.now table.now n) × (length found.new ≡ length found.old) }
{
    let who = request::user(q, 0);
    let mut open = RuleSet(0);
    let mut near = BlockSet::none();
    let mut count = 0usize;
    // By index: the byte and the block of a record follow from it.
    for k in 0..n {
        let at = record_start(k);
        let shared = shared_at(each, fitting, q, table, at);
        if shared.is_empty() {
            continue;
        }
        open = open.or(shared);
        near = near.with(k / Blocks::RECORDS);
        if same_user(table, at, who) {
            found[count] = at as u16;
            count += 1;
        }
    }
    Found { open, near, count }
}
