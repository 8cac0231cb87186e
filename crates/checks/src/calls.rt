// Check a policy; check a table under a policy; make a fresh table.
ghost use Rattle.std.specs.Prelude.{◌≡◌};
ghost use Rattle.format.specs.Calls.{check_policy, check_table, make_table};
ghost use Rattle.answers.specs.Code.{accepted_of, outcome};

use fields::layout::{BLOCK_BYTES, TABLE_BLOCKS};
use fields::tables::{Blocks, good_length};
use format::answer::Refusal;
use policy_check::policy::Policy;
use table_check::tables::{record_count, table_fault};
use table_write::write::fresh;

// Accepts a policy with the number of its rules.
pub fn check_policy(policy: &[u8]) -> Result<u32, Refusal>
    ensures { accepted_of result ≡ check_policy policy.now }
{
    let checked = Policy::check(policy)?;
    Ok(checked.rules)
}

// Accepts a table under a policy with the number of its records.
pub fn check_table(policy: &[u8], table: &[u8]) -> Result<u32, Refusal>
    ensures { accepted_of result ≡ check_table policy.now table.now }
{
    let checked = Policy::check(policy)?;
    table_fault(&checked, checked.stamp(), table)?;
    Ok(record_count(table) as u32)
}

// Makes a fresh table in a lent buffer, whose length says how many blocks the table gets, and accepts with the number of its places.
pub fn make_table(policy: &[u8], table: &mut [u8]) -> Result<u32, Refusal>
    ensures { outcome (accepted_of result) table.new ≡ make_table policy.now table.old }
{
    let checked = Policy::check(policy)?;
    if !good_length(table, TABLE_BLOCKS) {
        return Err(Refusal::TableLength);
    }
    let places = Blocks(table.len() / BLOCK_BYTES).capacity();
    fresh(table, checked.stamp());
    Ok(places as u32)
}
