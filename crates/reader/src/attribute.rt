// Attributes of a tag, each from the first byte of its name on or from the white space before it.
ghost use Rattle.std.specs.Prelude.{◌≡◌, false, ◌≤◌, ◌<◌, length, get_or};
ghost use Rattle.forms.specs.Code.{kind_of};
ghost use Rattle.forms.specs.Form.{is_of, space};
ghost use Rattle.xml.specs.Grammar.{attribute as attribute_of, name, spaced as spaced_of, both};
ghost use Rattle.reader.specs.Words.{word_count, named, word};
ghost use Rattle.reader.specs.Parts.{opened, some, in_turn, Told};
ghost use Rattle.reader.specs.Scan.{Scans};

use crate::misfit::Misfit;
use crate::run::some_end;
use crate::scan::{word_after, word_after_some, word_at};
use crate::word::{EQUALS, QUOTE, starts};
use forms::kind::ByteKind;

// The name, the sign and the opening quote.
pub fn opening(text: &[u8], at: usize, w: usize) -> Result<usize, Misfit>
    requires { (at ≤ length text.now) × (w < word_count) }
    ensures { Scans (opened (named w)) text.now at result }
{
    let name = word_at(text, at, w)?;
    let sign = word_after(text, name, ByteKind::Space, EQUALS)?;
    word_after(text, sign, ByteKind::Space, QUOTE)
}

// With a value of bytes of one kind.
pub fn attribute(text: &[u8], at: usize, w: usize, kind: ByteKind) -> Result<usize, Misfit>
    requires { (at ≤ length text.now) × (w < word_count) }
    ensures { Scans (attribute_of (named w) (some (kind_of kind))) text.now at result }
{
    let value = opening(text, at, w)?;
    word_after_some(text, value, kind, QUOTE)
}

// Behind white space.
pub fn spaced(text: &[u8], at: usize, w: usize, kind: ByteKind) -> Result<usize, Misfit>
    requires { (at ≤ length text.now) × ((w < word_count) × (is_of space (get_or (word w) 0 0) ≡ false)) }
    ensures { Scans (spaced_of (attribute_of (named w) (some (kind_of kind)))) text.now at result }
{
    let start = some_end(text, at, ByteKind::Space)?;
    attribute(text, start, w, kind)
}

// Two attributes in this order, whose values are names.
fn in_turn(text: &[u8], at: usize, m: usize, n: usize) -> Result<usize, Misfit>
    requires { (at ≤ length text.now) × Told m n }
    ensures { Scans (in_turn (named m) (named n)) text.now at result }
{
    let first = attribute(text, at, m, ByteKind::Name)?;
    spaced(text, first, n, ByteKind::Name)
}

// Two attributes in any order, behind white space. The first byte of the first name tells which it is.
pub fn pair(text: &[u8], at: usize, m: usize, n: usize) -> Result<usize, Misfit>
    requires { (at ≤ length text.now) × Told m n }
    ensures { Scans (both (attribute_of (named m) name) (attribute_of (named n) name)) text.now at result }
{
    let start = some_end(text, at, ByteKind::Space)?;
    if starts(n, text, start) {
        in_turn(text, start, n, m)
    } else {
        in_turn(text, start, m, n)
    }
}
