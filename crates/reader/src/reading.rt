// The next tag of a text: white space, the tag's word, and the tag up to its end.
ghost use Rattle.std.specs.Prelude.{◌≤◌, ◌<◌, length};
ghost use Rattle.reader.specs.Read.{Reads, ReadsTag};

use crate::element::begin;
use crate::misfit::Misfit;
use crate::run::run_end;
use crate::table::{BEHIND, next_state};
use crate::tag::rest;
use forms::kind::ByteKind;

// A tag, its end and the state behind it.
#[derive(Clone, Copy)]
pub struct Tag {
    pub element: usize,
    pub at: usize,
    pub state: usize,
}

fn whole_tag(text: &[u8], at: usize, state: usize) -> Result<Tag, Misfit>
    requires { (at ≤ length text.now) × (state < 7) }
    ensures { Reads state text.now at result }
{
    let start = run_end(text, at, ByteKind::Space);
    let begun = begin(text, start, state)?;
    let end = rest(text, begun.at, begun.element)?;
    Ok(Tag {
        element: begun.element,
        at: end,
        state: next_state(state, begun.element),
    })
}

// The same for every caller: it finds nothing at a place that the text does not have, or in a state that has no tag.
pub fn tag_at(text: &[u8], at: usize, state: usize) -> Result<Tag, Misfit>
    ensures { ReadsTag state text.now at result }
{
    if at <= text.len() && state < BEHIND {
        whole_tag(text, at, state)
    } else {
        Err(Misfit(at))
    }
}
