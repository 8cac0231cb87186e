// Read rules: "Convert that text to rule blocks, followed by the permission blocks alone of a second lent image, numbered anew". Asked in document 02's
// order: the numbers of the second image as a policy, the list of names, then the text.
ghost use Rattle.std.specs.Prelude.{◌≡◌};
ghost use Rattle.xml_calls.specs.Calls.{read_rules};
ghost use Rattle.answers.specs.Code.{converted_of, outcome};

use format::answer::TextRefusal;
use names::good::Names;
use policy_check::policy::Policy;
use text_read::read::read_text;

// Reads the rules of a text. The image is at the front of the output; a refusal leaves every byte.
pub fn read_rules(
    text: &[u8],
    names: &[u8],
    second: &[u8],
    output: &mut [u8],
) -> Result<usize, TextRefusal>
    ensures { outcome (converted_of result) output.new ≡ read_rules text.now names.now second.now output.old }
{
    let second = Policy::check(second)?;
    let names = Names::check(names)?;
    read_text(text, &names, &second, output)
}
