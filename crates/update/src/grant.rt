// Steps 4 and 5 of the judge: the new table, its three numbers, and the refusal 34 where it does not fit.
ghost use Rattle.std.specs.Prelude.{◌≡◌, cond, ℕ, ◌+◌, ◌-◌, ◌≤◌, List, eqb};
ghost use Rattle.sums.specs.Code.{sums_of};
ghost use Rattle.format.specs.Layout.{table_blocks, capacity};
ghost use Rattle.format.specs.Answer.{grant};
ghost use Rattle.format.specs.Block.{blocks};
ghost use Rattle.format.specs.Table.{table_image, records_of};
ghost use Rattle.format.specs.Records.{records_here};
ghost use Rattle.format.specs.Altered.{altered_blocks};
ghost use Rattle.clearing.specs.Cleared.{Ready};
ghost use Rattle.answers.specs.Code.{counted_of, granted_of, outcome, written_of};
ghost use Rattle.update.specs.Updating.{Judged, update_of};

use crate::table_after::write_after;
use answers::reply::Counted;
use clearing::ending::Ending;
use clearing::room::has_room;
use fields::layout::{BLOCK_BYTES, REQUEST_BYTES};
use fields::sets::RuleSet;
use fields::tables::Blocks;
use format::answer::{Grant, Refusal};
use sums::sum::Sum;

// The numbers of a grant, from the records before and after.
pub fn granted(n: usize, gives: RuleSet, held: usize) -> Grant
    requires { (n ≤ capacity table_blocks) × (held ≤ n + cond (eqb gives.0 0) 0 1) }
    ensures { grant result.recorded result.removed result.held ≡ grant (cond (eqb gives.0 0) 0 1) (n + cond (eqb gives.0 0) 0 1 - held) held }
{
    let recorded = if gives.is_empty() { 0 } else { 1usize };
    Grant {
        recorded: recorded as u32,
        removed: (n + recorded - held) as u32,
        held: held as u32,
    }
}

// Writes the table after a request that steps 1 to 3 let pass, by what a grant of it ends and gives, and says how many blocks it wrote. The table is the
// image of n records with marks.
pub fn update(
    stamp: Sum,
    ending: Ending,
    gives: RuleSet,
    q: &[u8; REQUEST_BYTES],
    table: &mut [u8],
    n: usize,
) -> Result<Counted<Grant>, Refusal>
    requires ready { Ready ending q.now table.old n }
    requires table_value { table.old ≡ table_image (sums_of stamp) (blocks table.old) (records_here table.old n) }
    ensures { (policy : List ℕ) → Judged policy (sums_of stamp) ending gives q.now table.old n → (outcome (granted_of (counted_of result)) table.new ≡ update_of policy table.old q.now) × (written_of result ≡ altered_blocks (blocks table.old) (records_of table.old) (records_of table.new)) }
{
    let room = Blocks(table.len() / BLOCK_BYTES).capacity();
    if !has_room(ending, gives, q, table, n, room) {
        return Err(Refusal::Full);
    }
    let after = write_after(stamp, ending, gives, q, table, n);
    Ok(Counted {
        answer: granted(n, gives, after.held),
        written: after.blocks,
    })
}
