// What a closing leaves of a table's records: those whose context begins with the levels that it names go, "Other records keep the marks they had."
ghost use Rattle.std.specs.Prelude.{◌≡◌, true, false, ℕ, ◌+◌, ◌<◌, ◌≤◌, length};
ghost use Rattle.words.specs.Bytes.{part};
ghost use Rattle.format.specs.Layout.{request_bytes, most_levels};
ghost use Rattle.format.specs.Request.{context_of, depth_of};
ghost use Rattle.format.specs.Context.{begins as begins_of, same_level as same_level_of};
ghost use Rattle.format.specs.Records.{record_here, records_here};
ghost use Rattle.judge.specs.Close.{closed};
ghost use Rattle.fields.specs.Code.{HasRoom};
ghost use Rattle.table_write.specs.Writing.{Placed};

use clearing::settling::{Settled, pass_records};
use fields::blocks::BlockSet;
use fields::field::u32_at;
use fields::layout::{CONTEXT_AT, CONTEXT_BYTES, CONTEXT_LEVEL_BYTES};
use fields::tables::record_start;
use request_check::context::depth;

// Level i of the context of the request at a byte is that of a context. It is one word: its type and its value are compared at once.
fn same_level(context: &[u8; CONTEXT_BYTES], s: &[u8], at: usize, i: u32) -> bool
    requires { (i < most_levels) × (at + request_bytes ≤ length s.now) }
    ensures { result ≡ same_level_of (context_of (part s.now at request_bytes)) context.now i }
{
    let from = CONTEXT_LEVEL_BYTES * (i as usize);
    u32_at(s, at + CONTEXT_AT + from) == u32_at(context, from)
}

// The context of the request at a byte begins with the levels of a context, as many as it uses.
fn begins(context: &[u8; CONTEXT_BYTES], levels: u32, s: &[u8], at: usize) -> bool
    requires levels_value { levels ≡ depth_of context.now }
    requires request_bytes_in_bounds { at + request_bytes ≤ length s.now }
    ensures { result ≡ begins_of context.now (part s.now at request_bytes) }
{
    (0..levels).all(|i| same_level(context, s, at, i))
}

// The first place from one on, below n, of a record that the context names; n, if it names none of them.
fn named_from(
    context: &[u8; CONTEXT_BYTES],
    levels: u32,
    table: &[u8],
    from: usize,
    n: usize,
) -> usize
    requires levels_value { levels ≡ depth_of context.now }
    requires from_le_n { (from ≤ n) × (HasRoom table.now n) }
    ensures { (from ≤ result) × (result ≤ n) × ((k : ℕ) → from ≤ k → k < result → begins_of context.now (record_here table.now k).request ≡ false) × (result < n → begins_of context.now (record_here table.now result).request ≡ true) }
{
    for i in from..n {
        if begins(context, levels, table, record_start(i)) {
            return i;
        }
    }
    n
}

// Moves the records that the context does not name to the front, in their order and with their marks: those between two that it names at once. Nothing
// is moved before one has gone.
pub fn close_records(context: &[u8; CONTEXT_BYTES], table: &mut [u8], n: usize) -> Settled
    requires { HasRoom table.old n }
    ensures { (records_here table.new result.held ≡ closed context.now (records_here table.old n)) × (Placed table.old table.new result.held result.changed) }
{
    let levels = depth(context, 0);
    let mut i = named_from(context, levels, table, 0, n);
    let mut settled = Settled {
        held: i,
        changed: BlockSet::none(),
    };
    while i < n {
        let next = i + 1;
        let end = named_from(context, levels, table, next, n);
        settled = pass_records(table, next, end, settled);
        i = end;
    }
    settled
}
