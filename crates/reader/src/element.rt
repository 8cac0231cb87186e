// Which tag begins at a place behind white space.
ghost use Rattle.std.specs.Prelude.{◌≡◌, ◌≤◌, ◌<◌, length, drop};
ghost use Rattle.reader.specs.Table.{states, elements};
ghost use Rattle.reader.specs.Begin.{share as share_of, Begins};

use crate::misfit::Misfit;
use crate::table::{ELEMENTS, NONE, next_state};
use crate::word::{matched, word};

// A tag and the end of its word.
#[derive(Clone, Copy)]
pub struct Begun {
    pub element: usize,
    pub at: usize,
}

// How much of a tag's word stands there, if the tag may stand in the state.
fn share(text: &[u8], at: usize, s: usize, c: usize) -> usize
    requires { (at ≤ length text.now) × ((s < states) × (c < elements)) }
    ensures { result ≡ share_of s (drop at text.now) c }
{
    if next_state(s, c) < NONE {
        matched(c, text, at)
    } else {
        0
    }
}

// One loop and no chain: it gives the tag that is all there, or how far the others go.
pub fn begin(text: &[u8], at: usize, s: usize) -> Result<Begun, Misfit>
    requires { (at ≤ length text.now) × (s < 7) }
    ensures { Begins s text.now at result }
{
    let mut best = 0;
    for c in 0..ELEMENTS {
        let n = share(text, at, s, c);
        if n == word(c).len() {
            return Ok(Begun {
                element: c,
                at: at + n,
            });
        }
        best = best.max(n);
    }
    Err(Misfit(at + best))
}
