// For our own tests, in an archive of its own: a decision and a closing, and how many blocks each wrote. No part of the boundary (crates/sod, include/sod.h).
#![tactic(auto)]

ghost use Rattle.std.specs.Prelude.{◌≡◌};
ghost use Rattle.judge.specs.Close.{close as close_of};
ghost use Rattle.judge.specs.Decide.{decide as decide_of};
ghost use Rattle.judge.specs.Written.{decided_blocks, closed_blocks};

use closing::calls::close_counted;
use engine::deciding::decide_counted;

#[unsafe(no_mangle)]
pub extern "C" fn sod_probe_decide(policy: &[u8], table: &mut [u8], request: &[u8]) -> usize
    ensures { (table.new ≡ (decide_of policy.now table.old request.now).state) × (result ≡ decided_blocks policy.now table.old request.now) }
{
    match decide_counted(policy, table, request) {
        Ok(counted) => counted.written,
        Err(_) => 0,
    }
}

#[unsafe(no_mangle)]
pub extern "C" fn sod_probe_close(policy: &[u8], table: &mut [u8], context: &[u8]) -> usize
    ensures { (table.new ≡ (close_of policy.now table.old context.now).state) × (result ≡ closed_blocks policy.now table.old context.now) }
{
    match close_counted(policy, table, context) {
        Ok(counted) => counted.written,
        Err(_refusal) => 0,
    }
}
