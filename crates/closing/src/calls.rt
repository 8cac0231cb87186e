// Close a context: "Every record whose context begins with those levels is removed, and the number removed is returned". Asked in document 02's order: the
// policy's numbers, the table's, then those of a context.
ghost use Rattle.std.specs.Prelude.{◌≡◌};
ghost use Rattle.judge.specs.Close.{close as close_of};
ghost use Rattle.judge.specs.Written.{closed_blocks};
ghost use Rattle.answers.specs.Code.{accepted_of, counted_of, outcome, written_of};

use answers::reply::Counted;
use format::answer::Refusal;
use policy_check::policy::Policy;
use request_check::context::context_fault;
use table_check::tables::{record_count, table_fault};
use update::closing::write_closed;

// Closes a context, and counts the blocks that it writes: just those whose records differ. "The number removed" is what the records held are fewer by.
pub fn close_counted(
    policy: &[u8],
    table: &mut [u8],
    context: &[u8],
) -> Result<Counted<u32>, Refusal>
    ensures { (outcome (accepted_of (counted_of result)) table.new ≡ close_of policy.now table.old context.now) × (written_of result ≡ closed_blocks policy.now table.old context.now) }
{
    let checked = Policy::check(policy)?;
    let stamp = checked.stamp();
    table_fault(&checked, stamp, table)?;
    let closed = context_fault(context)?;
    let n = record_count(table);
    let after = write_closed(stamp, closed, table, n);
    let held = after.held;
    let removed = n - held;
    Ok(Counted {
        answer: removed as u32,
        written: after.blocks,
    })
}

// Closes a context. The records that it names are gone from the lent table; a refusal leaves every byte.
pub fn close(policy: &[u8], table: &mut [u8], context: &[u8]) -> Result<u32, Refusal>
    ensures { outcome (accepted_of result) table.new ≡ close_of policy.now table.old context.now }
{
    let counted = close_counted(policy, table, context)?;
    Ok(counted.answer)
}
