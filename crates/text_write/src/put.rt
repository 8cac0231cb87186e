// What every piece of the text is laid down by: bytes and names. Past the output's end nothing is written. Each answers where the next byte goes.
ghost use Rattle.std.specs.Prelude.{◌≡◌, true, ◌+◌, ◌<◌, ◌≤◌, length, set, OnErr};
ghost use Rattle.xml.specs.Names.{most_name_bytes};
ghost use Rattle.xml.specs.Write.{name_text};
ghost use Rattle.text_write.specs.Laid.{Lays, Puts};
ghost use Rattle.text_write.specs.Lost.{name_lost};

use format::answer::TextRefusal;
use names::good::Names;

// Where the next byte goes behind a piece with names, and a refusal if one of them is not listed. In place of such a name stands nothing, and what follows it
// is laid down all the same.
#[derive(Clone, Copy)]
pub struct Placed {
    pub next: usize,
    pub named: Result<(), TextRefusal>,
}

// A byte.
fn put_byte(output: &mut [u8], at: usize, b: u8)
    ensures { output.new ≡ set output.old at b }
{
    if at < output.len() {
        output[at] = b;
    }
}

// Bytes.
pub fn put(output: &mut [u8], at: usize, s: &[u8]) -> usize
    requires { at + length s.now < 4294967296 }
    ensures { Lays (length s.now) output.old at s.now output.new result }
{
    for i in 0..s.len() {
        put_byte(output, at + i, s[i]);
    }
    at + s.len()
}

// The name of a number of a kind. The kind is a number, and no `NameKind`, since an answer is promised for every number.
pub fn put_name(output: &mut [u8], at: usize, names: &Names<'_>, kind: u8, number: u16) -> Placed
    requires { at + most_name_bytes < 4294967296 }
    ensures puts { Puts most_name_bytes output.old at (name_text names.now.list.now kind number) (name_lost names.now.list.now kind number) output.new result }
    ensures kept { OnErr result.named (output.new ≡ output.old) }
{
    let Some(name) = names.name_of(kind, number) else {
        return Placed {
            next: at,
            named: Err(TextRefusal::NotListed),
        };
    };
    Placed {
        next: put(output, at, name),
        named: Ok(()),
    }
}
