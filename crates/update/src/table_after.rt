// The table after a grant: records that lose their last mark go, and the request is put behind the others. Only blocks whose records differ are written.
ghost use Rattle.std.specs.Prelude.{◌≡◌, cond, List, [], ◌∷◌, ◌++◌, ℕ, ◌+◌, ◌≤◌, eqb, length};
ghost use Rattle.sums.specs.Code.{sums_of};
ghost use Rattle.format.specs.Layout.{capacity};
ghost use Rattle.format.specs.Block.{blocks as blocks_of};
ghost use Rattle.format.specs.Table.{Record, table_image};
ghost use Rattle.format.specs.Records.{records_here};
ghost use Rattle.judge.specs.NewTable.{sweep};
ghost use Rattle.fields.specs.Code.{HasRoom};
ghost use Rattle.table_write.specs.Writing.{Placed};
ghost use Rattle.clearing.specs.Cleared.{after_of, Ready};
ghost use Rattle.update.specs.Became.{Became, WrittenIs};

use clearing::ending::Ending;
use clearing::settling::{Settled, settle};
use fields::layout::REQUEST_BYTES;
use fields::sets::RuleSet;
use sums::sum::Sum;
use table_write::places::{place_request, with_resized};
use table_write::write::seal_blocks;

// What was written: how many records the table holds now, and how many of its blocks were written.
#[derive(Clone, Copy)]
pub struct Written {
    pub held: usize,
    pub blocks: usize,
}

// Writes the blocks whose records differ, around the records that stand in a table that was the image of n.
pub fn write_settled(stamp: Sum, table: &mut [u8], n: usize, after: Settled) -> Written
    requires { Became (sums_of stamp) n table.old after.held after.changed }
    ensures { (s : List ℕ) (rs : List Record) → Placed s table.old after.held after.changed → records_here table.old after.held ≡ rs → WrittenIs (sums_of stamp) s n table.new rs result }
{
    let held = after.held;
    let changed = with_resized(after.changed, n, held);
    let blocks = seal_blocks(table, stamp, held, changed);
    Written { held, blocks }
}

// Puts the request behind the records that are left, if it has a mark.
fn append(table: &mut [u8], left: Settled, q: &[u8; REQUEST_BYTES], gives: RuleSet) -> Settled
    requires { HasRoom table.old (left.held + cond (eqb gives.0 0) 0 1) }
    ensures { (records_here table.new result.held ≡ records_here table.old left.held ++ sweep (record { request = q.now; marks = gives.0 } ∷ [])) × ((s : List ℕ) → Placed s table.old left.held left.changed → Placed s table.new result.held result.changed) }
{
    if gives.is_empty() {
        return left;
    }
    let held = left.held;
    let noted = left.changed;
    let changed = place_request(table, held, q, gives, noted);
    Settled {
        held: held + 1,
        changed,
    }
}

// Writes the table after a grant.
pub fn write_after(
    stamp: Sum,
    ending: Ending,
    gives: RuleSet,
    q: &[u8; REQUEST_BYTES],
    table: &mut [u8],
    n: usize,
) -> Written
    requires ready { Ready ending q.now table.old n }
    requires table_value { table.old ≡ table_image (sums_of stamp) (blocks_of table.old) (records_here table.old n) }
    requires n_len_bound { length (after_of ending gives q.now (records_here table.old n)) ≤ capacity (blocks_of table.old) }
    ensures { WrittenIs (sums_of stamp) table.old n table.new (after_of ending gives q.now (records_here table.old n)) result }
{
    let left = settle(ending, q, table, n);
    let after = append(table, left, q, gives);
    write_settled(stamp, table, n, after)
}
