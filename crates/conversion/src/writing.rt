// Write rules: "Also write any accepted policy's rules as text, in one fixed spelling". Asked in document 02's order: the policy's numbers, the list of
// names, then rule by rule.
ghost use Rattle.std.specs.Prelude.{◌≡◌};
ghost use Rattle.xml_calls.specs.Calls.{write_rules};
ghost use Rattle.answers.specs.Code.{converted_of, outcome};

use format::answer::TextRefusal;
use names::good::Names;
use policy_check::policy::Policy;
use text_write::text::write_text;

// Writes a policy's rules as text. The text is at the front of the output; a refusal leaves every byte.
pub fn write_rules(policy: &[u8], names: &[u8], output: &mut [u8]) -> Result<usize, TextRefusal>
    ensures { outcome (converted_of result) output.new ≡ write_rules policy.now names.now output.old }
{
    let policy = Policy::check(policy)?;
    let names = Names::check(names)?;
    write_text(&policy, &names, output)
}
