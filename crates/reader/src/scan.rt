// Pieces of a tag: a word, and a word behind bytes of a kind. `Ok` has the end of what was taken.
ghost use Rattle.std.specs.Prelude.{◌≡◌, false, ◌≤◌, ◌<◌, length, get_or};
ghost use Rattle.forms.specs.Code.{kind_of};
ghost use Rattle.forms.specs.Form.{is_of, one, many};
ghost use Rattle.xml.specs.Grammar.{◌▸◌, text as exactly};
ghost use Rattle.reader.specs.Words.{word_count, named, word};
ghost use Rattle.reader.specs.Scan.{Scans};

use crate::misfit::Misfit;
use crate::run::{run_end, some_end};
use crate::word::{matched, word};
use forms::kind::ByteKind;

pub fn word_at(text: &[u8], at: usize, w: usize) -> Result<usize, Misfit>
    requires { (at ≤ length text.now) × (w < word_count) }
    ensures { Scans (exactly (named w)) text.now at result }
{
    let n = matched(w, text, at);
    if n == word(w).len() {
        Ok(at + n)
    } else {
        Err(Misfit(at + n))
    }
}

// A word behind any number of bytes of a kind that its first byte is not of.
pub fn word_after(text: &[u8], at: usize, kind: ByteKind, w: usize) -> Result<usize, Misfit>
    requires { (at ≤ length text.now) × ((w < word_count) × (is_of (kind_of kind) (get_or (word w) 0 0) ≡ false)) }
    ensures { Scans (many (one (kind_of kind)) ▸ exactly (named w)) text.now at result }
{
    word_at(text, run_end(text, at, kind), w)
}

// The same, where one byte of the kind must stand there.
pub fn word_after_some(text: &[u8], at: usize, kind: ByteKind, w: usize) -> Result<usize, Misfit>
    requires { (at ≤ length text.now) × ((w < word_count) × (is_of (kind_of kind) (get_or (word w) 0 0) ≡ false)) }
    ensures { Scans (one (kind_of kind) ▸ many (one (kind_of kind)) ▸ exactly (named w)) text.now at result }
{
    let end = some_end(text, at, kind)?;
    word_at(text, end, w)
}
