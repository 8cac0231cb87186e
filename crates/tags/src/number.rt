// The number that a value says.
ghost use Rattle.std.specs.Prelude.{◌≡◌, cond, ◌+◌, ◌-◌, ◌*◌, ◌≤◌, min, length};
ghost use Rattle.forms.specs.Form.{space, is_of};
ghost use Rattle.xml.specs.Tags.{squeezed};
ghost use Rattle.xml.specs.Read.{decimal};
ghost use Rattle.tags.specs.Cut.{span};

use crate::cut::white;

// A number with one digit more, at most 255; white space says nothing.
fn with_digit(n: u8, b: u8) -> u8
    ensures { result ≡ cond (is_of space b) n (min 255 (10 * n + (b - 48))) }
{
    if white(b) {
        return n;
    }
    n.saturating_mul(10).saturating_add(b.saturating_sub(b'0'))
}

// The number of a row of digits, 255 if it is more.
pub fn cardinality(text: &[u8], from: usize, to: usize) -> u8
    requires { (from ≤ to) × (to ≤ length text.now) }
    ensures { result ≡ min 255 (decimal (squeezed (span text.now from to))) }
{
    text[from..to].iter().fold(0, |n, b| with_digit(n, *b))
}
