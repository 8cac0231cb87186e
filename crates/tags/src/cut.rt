// Cutting a text into pieces, and leaving its white space out.
ghost use Rattle.std.specs.Prelude.{◌≡◌, cond, ◌+◌, ◌≤◌, ◌<◌, length, set};
ghost use Rattle.forms.specs.Form.{space, is_of};
ghost use Rattle.xml.specs.Tags.{squeezed};
ghost use Rattle.tags.specs.Cut.{span, until as bytes_until, past as behind, laid};
ghost use Rattle.tags.specs.Code.{NextPiece};

use crate::span::Span;
use forms::kind::{ByteKind, is_of};

// A value stands between two of them.
pub const QUOTE: u8 = b'"';

// Where a byte stands first; the end, if it stands nowhere.
pub fn until(text: &[u8], from: usize, to: usize, b: u8) -> usize
    requires { (from ≤ to) × (to ≤ length text.now) }
    ensures { (result ≡ from + bytes_until b (span text.now from to)) × (from ≤ result) × (result ≤ to) }
{
    let s = &text[from..to];
    from + s.iter().position(|x| *x == b).unwrap_or(s.len())
}

// The byte behind one, or the end.
fn past(at: usize, to: usize) -> usize
    requires { at ≤ to }
    ensures { result ≡ behind at to }
{
    if at < to { at + 1 } else { to }
}

// The piece behind the b at a byte, up to the next b; at the end an empty one.
pub fn next(text: &[u8], at: usize, to: usize, b: u8) -> Span
    requires { (at ≤ to) × (to ≤ length text.now) }
    ensures { NextPiece b text.now at to result }
{
    let from = past(at, to);
    Span {
        from,
        to: until(text, from, to, b),
    }
}

// A byte is white space.
pub fn white(b: u8) -> bool
    ensures { result ≡ is_of space b }
{
    is_of(ByteKind::Space, b)
}

// Puts a byte at a place of the buffer, if there is room and it is no white space: how many there are then.
fn add(buffer: &mut [u8], n: usize, b: u8) -> usize
    requires { n < 18446744073709551615 }
    ensures { (result ≡ cond (is_of space b) n (n + 1))
        × (buffer.new ≡ cond (is_of space b) buffer.old (set buffer.old n b))
        × (result ≤ n + 1) }
{
    if white(b) {
        return n;
    }
    if n < buffer.len() {
        buffer[n] = b;
    }
    n + 1
}

// Copies what is no white space to the front of the buffer, as far as it has room: how many bytes there are in all.
pub fn squeeze(text: &[u8], from: usize, to: usize, buffer: &mut [u8]) -> usize
    requires { (from ≤ to) × (to ≤ length text.now) }
    ensures { (result ≡ length (squeezed (span text.now from to)))
        × (buffer.new ≡ laid (squeezed (span text.now from to)) buffer.old) }
{
    let mut n: usize = 0;
    for i in from..to {
        n = add(buffer, n, text[i]);
    }
    n
}
