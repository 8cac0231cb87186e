// The boundary for other languages: the eight entry points as C functions, and one struct by value. include/sod.h says what a caller owes.
#![tactic(auto)]

ghost use Rattle.std.specs.Prelude.{◌≡◌};
ghost use Rattle.format.specs.Calls.{check_policy, check_table, make_table};
ghost use Rattle.judge.specs.Close.{close as close_of};
ghost use Rattle.judge.specs.Decide.{decide as decide_of};
ghost use Rattle.judge.specs.Preview.{preview as preview_of};
ghost use Rattle.xml_calls.specs.Calls.{read_rules, write_rules};
ghost use Rattle.answers.specs.Numbers.{four, four_of, narrowed};
ghost use Rattle.sod.specs.Code.{left};

use answers::numbers::SodReply;
use checks::calls::{check_policy, check_table, make_table};
use closing::calls::close;
use conversion::reading::read_rules;
use conversion::writing::write_rules;
use engine::deciding::{decide, preview};

#[unsafe(no_mangle)]
pub extern "C" fn sod_check_policy(policy: &[u8]) -> SodReply
    ensures { four_of result ≡ four (check_policy policy.now) }
{
    SodReply::from(check_policy(policy))
}

#[unsafe(no_mangle)]
pub extern "C" fn sod_check_table(policy: &[u8], table: &[u8]) -> SodReply
    ensures { four_of result ≡ four (check_table policy.now table.now) }
{
    SodReply::from(check_table(policy, table))
}

#[unsafe(no_mangle)]
pub extern "C" fn sod_fresh_table(policy: &[u8], table: &mut [u8]) -> SodReply
    ensures { left (four_of result) table.new ≡ left (four (make_table policy.now table.old).answer) (make_table policy.now table.old).state }
{
    SodReply::from(make_table(policy, table))
}

#[unsafe(no_mangle)]
pub extern "C" fn sod_decide(policy: &[u8], table: &mut [u8], request: &[u8]) -> SodReply
    ensures { left (four_of result) table.new ≡ left (four (decide_of policy.now table.old request.now).answer) (decide_of policy.now table.old request.now).state }
{
    SodReply::from(decide(policy, table, request))
}

#[unsafe(no_mangle)]
pub extern "C" fn sod_preview(policy: &[u8], table: &[u8], request: &[u8]) -> SodReply
    ensures { four_of result ≡ four (preview_of policy.now table.now request.now) }
{
    SodReply::from(preview(policy, table, request))
}

#[unsafe(no_mangle)]
pub extern "C" fn sod_close(policy: &[u8], table: &mut [u8], context: &[u8]) -> SodReply
    ensures { left (four_of result) table.new ≡ left (four (close_of policy.now table.old context.now).answer) (close_of policy.now table.old context.now).state }
{
    SodReply::from(close(policy, table, context))
}

// ---- rules as text

#[unsafe(no_mangle)]
pub extern "C" fn sod_read_rules(
    text: &[u8],
    names: &[u8],
    second: &[u8],
    output: &mut [u8],
) -> SodReply
    ensures { left (four_of result) output.new ≡ left (narrowed (four (read_rules text.now names.now second.now output.old).answer)) (read_rules text.now names.now second.now output.old).state }
{
    SodReply::from(read_rules(text, names, second, output))
}

#[unsafe(no_mangle)]
pub extern "C" fn sod_write_rules(policy: &[u8], names: &[u8], output: &mut [u8]) -> SodReply
    ensures { left (four_of result) output.new ≡ left (narrowed (four (write_rules policy.now names.now output.old).answer)) (write_rules policy.now names.now output.old).state }
{
    SodReply::from(write_rules(policy, names, output))
}
