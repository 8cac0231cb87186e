// Reading: the text's form, its tags, and the image that its rules make.
ghost use Rattle.std.specs.Prelude.{◌≡◌, length};
ghost use Rattle.format.specs.Answer.{refusing};
ghost use Rattle.xml_calls.specs.Calls.{resulting, read_fault, read_image};
ghost use Rattle.answers.specs.Code.{converted_of, outcome};

use crate::sheet::Sheet;
use crate::source::Source;
use fields::layout::BLOCK_BYTES;
use format::answer::TextRefusal;
use names::good::Names;
use numbering::anew::write_image;
use policy_check::policy::Policy;
use reader::misfit::Misfit;
use reader::reached::reach_of;

// Reads the rules of a text with a good list beside the permission blocks of a policy: the length of the image that they make. Nothing is written before all
// is read.
pub fn read_text(
    text: &[u8],
    names: &Names<'_>,
    second: &Policy<'_>,
    output: &mut [u8],
) -> Result<usize, TextRefusal>
    ensures { outcome (converted_of result) output.new ≡ refusing (read_fault text.now names.now.list.now second.now.image.now (length output.old)) output.old (resulting (read_image text.now names.now.list.now second.now.image.now) output.old) }
{
    let reached = reach_of(text);
    let end = match reached {
        Ok(()) => text.len(),
        Err(Misfit(at)) => at,
    };
    let rules = second.rules as usize;
    let source = Source {
        text,
        names: *names,
        permissions: second.image.len() / BLOCK_BYTES - rules,
        room: output.len(),
    };
    let mut sheet = Sheet::new();
    // A tag's fault comes first: its tag ends before the byte that the form does not have.
    let read = sheet.read_tags(&source, end);
    read?;
    if let Err(Misfit(at)) = reached {
        return Err(TextRefusal::Misfit(at));
    }
    Ok(write_image(&sheet.kept, sheet.rules, second.image, rules, output))
}
