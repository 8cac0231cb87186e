// Bytes of one kind in a row.
ghost use Rattle.std.specs.Prelude.{◌≡◌, ◌≤◌, length};
ghost use Rattle.forms.specs.Form.{space};
ghost use Rattle.forms.specs.Code.{kind_of};
ghost use Rattle.reader.specs.Scan.{run_end, RunsOn};

use crate::misfit::Misfit;
use forms::kind::{ByteKind, is_of};

// Where the bytes of the kind end that stand at a place. Timed in the engine, this is faster than a loop, and than `take_while` with `count`.
fn end_of(text: &[u8], at: usize, kind: ByteKind) -> usize
    requires { at ≤ length text.now }
    ensures { result ≡ run_end (kind_of kind) text.now at }
{
    match text[at..].iter().position(|b| !is_of(kind, *b)) {
        Some(n) => at + n,
        None => text.len(),
    }
}

// The same of white space, as a function of its own: within the others, where no register is free, the loop would read for each byte anew where the text stands.
#[inline(never)]
fn spaces_end(text: &[u8], at: usize) -> usize
    requires { at ≤ length text.now }
    ensures { result ≡ run_end space text.now at }
{
    end_of(text, at, ByteKind::Space)
}

// The same of any kind.
pub fn run_end(text: &[u8], at: usize, kind: ByteKind) -> usize
    requires { at ≤ length text.now }
    ensures { result ≡ run_end (kind_of kind) text.now at }
{
    match kind {
        ByteKind::Space => spaces_end(text, at),
        _ => end_of(text, at, kind),
    }
}

// The same, where one must stand there.
pub fn some_end(text: &[u8], at: usize, kind: ByteKind) -> Result<usize, Misfit>
    requires { at ≤ length text.now }
    ensures { RunsOn (kind_of kind) text.now at result }
{
    let end = run_end(text, at, kind);
    if end == at { Err(Misfit(at)) } else { Ok(end) }
}
