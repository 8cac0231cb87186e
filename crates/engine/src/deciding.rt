// Decide and preview: both examine the request; then a decision takes steps 4 and 5, and a preview says what they would answer.
ghost use Rattle.std.specs.Prelude.{◌≡◌};
ghost use Rattle.judge.specs.Decide.{decide as decide_of};
ghost use Rattle.judge.specs.Preview.{preview as preview_of};
ghost use Rattle.judge.specs.Written.{decided_blocks};
ghost use Rattle.answers.specs.Code.{counted_of, granted_of, outcome, written_of};

use crate::examining::examine;
use answers::reply::Counted;
use format::answer::{Grant, Refusal};
use update::foreseeing::foresee;
use update::grant::update;

// Decides one request, and counts the blocks that it writes: just those whose records differ.
pub fn decide_counted(
    policy: &[u8],
    table: &mut [u8],
    request: &[u8],
) -> Result<Counted<Grant>, Refusal>
    ensures { (outcome (granted_of (counted_of result)) table.new ≡ decide_of policy.now table.old request.now) × (written_of result ≡ decided_blocks policy.now table.old request.now) }
{
    let p = examine(policy, table, request)?;
    update(p.stamp, p.ending, p.gives, p.request, table, p.held)
}

// Decides one request. A grant brings the lent table up to date, a refusal leaves every byte.
pub fn decide(policy: &[u8], table: &mut [u8], request: &[u8]) -> Result<Grant, Refusal>
    ensures { outcome (granted_of result) table.new ≡ decide_of policy.now table.old request.now }
{
    let counted = decide_counted(policy, table, request)?;
    Ok(counted.answer)
}

// What `decide` would answer, every number included. The lent table is only read.
pub fn preview(policy: &[u8], table: &[u8], request: &[u8]) -> Result<Grant, Refusal>
    ensures { granted_of result ≡ preview_of policy.now table.now request.now }
{
    let pass = examine(policy, table, request)?;
    foresee(pass.ending, pass.gives, pass.request, table, pass.held)
}
