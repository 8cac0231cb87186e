// The text of all rules of a policy. One body of code writes, and is run twice: first over an empty output, to learn the first fault and the
// text's length, and then, if there is no fault and room enough, over the lent one.
ghost use Rattle.std.specs.Prelude.{◌≡◌, true, ◌+◌, ◌<◌};
ghost use Rattle.format.specs.Policy.{policy_of};
ghost use Rattle.xml.specs.Write.{rules_text};
ghost use Rattle.text_write.specs.Pieces.{most_rules_bytes, most_text_bytes};
ghost use Rattle.answers.specs.Code.{converted_of, outcome};
ghost use Rattle.text_write.specs.Wrote.{inner_text, rules_fault, Ran, writing};

use crate::put::put;
use crate::rule::{has_range, put_rule};
use crate::spelling::{SET, SET_END};
use format::answer::TextRefusal;
use names::good::Names;
use policy_check::policy::Policy;

// The rules from a byte on, up to the first that has a fault.
fn put_rules(
    output: &mut [u8],
    start: usize,
    names: &Names<'_>,
    policy: &Policy,
) -> Result<usize, TextRefusal>
    requires { start + most_rules_bytes < 4294967296 }
    ensures { Ran most_rules_bytes (rules_fault names.now.list.now (policy_of policy.now.image.now)) output.old start (inner_text names.now.list.now (policy_of policy.now.image.now)) output.new result }
{
    let mut at = start;
    for k in 0..policy.rules {
        let b = policy.rule(k);
        let rule = put_rule(output, at, names, b);
        rule.named?;
        if has_range(b) {
            return Err(TextRefusal::NotWithin);
        }
        at = rule.next;
    }
    Ok(at)
}

// The whole text from the output's first byte on.
fn put_set(output: &mut [u8], names: &Names<'_>, policy: &Policy) -> Result<usize, TextRefusal>
    ensures { Ran most_text_bytes (rules_fault names.now.list.now (policy_of policy.now.image.now)) output.old 0 (rules_text names.now.list.now (policy_of policy.now.image.now)) output.new result }
{
    let first = put(output, 0, SET);
    let second = put_rules(output, first, names, policy)?;
    Ok(put(output, second, SET_END))
}

// The text at the front of the output, and its length; bytes past it are as they were, and with a refusal all are.
pub fn write_text(
    policy: &Policy,
    names: &Names<'_>,
    output: &mut [u8],
) -> Result<usize, TextRefusal>
    ensures { outcome (converted_of result) output.new ≡ writing names.now.list.now (policy_of policy.now.image.now) output.old }
{
    let n = put_set(&mut [], names, policy)?;
    if output.len() < n {
        return Err(TextRefusal::NotWithin);
    }
    put_set(output, names, policy)
}
