// What steps 4 and 5 would answer, with nothing written: the table is read where it lies, and no copy is made of it.
ghost use Rattle.std.specs.Prelude.{◌≡◌, List, ℕ};
ghost use Rattle.words.specs.Sums.{Sums};
ghost use Rattle.clearing.specs.Cleared.{Ready};
ghost use Rattle.answers.specs.Code.{granted_of};
ghost use Rattle.update.specs.Updating.{Judged, update_of};

use crate::grant::granted;
use clearing::ending::Ending;
use clearing::room::held_after;
use fields::layout::{BLOCK_BYTES, REQUEST_BYTES};
use fields::sets::RuleSet;
use fields::tables::Blocks;
use format::answer::{Grant, Refusal};

// What `update` would answer. It counts what would be held; `update` finds that out as it writes.
pub fn foresee(
    ending: Ending,
    gives: RuleSet,
    q: &[u8; REQUEST_BYTES],
    table: &[u8],
    n: usize,
) -> Result<Grant, Refusal>
    requires { Ready ending q.now table.now n }
    ensures { (policy : List ℕ) (t : Sums) → Judged policy t ending gives q.now table.now n → granted_of result ≡ (update_of policy table.now q.now).answer }
{
    let room = Blocks(table.len() / BLOCK_BYTES).capacity();
    let held = held_after(ending, gives, q, table, n);
    if room < held {
        return Err(Refusal::Full);
    }
    Ok(granted(n, gives, held))
}
