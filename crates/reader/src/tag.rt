// A tag behind its word, up to its end.
ghost use Rattle.std.specs.Prelude.{◌≤◌, ◌<◌, length};
ghost use Rattle.xml.specs.Grammar.{◌▸◌, text as exactly, gap, context as context_of, attribute, spaced as spaced_of};
ghost use Rattle.reader.specs.Parts.{two, Told};
ghost use Rattle.reader.specs.Table.{elements, cardinality_rest, context_rest, rest as rest_of};
ghost use Rattle.reader.specs.Scan.{Scans};

use crate::attribute::{opening, pair, spaced};
use crate::context::context;
use crate::misfit::Misfit;
use crate::run::some_end;
use crate::scan::word_after;
use crate::word::{
    BUSINESS_CONTEXT, FORBIDDEN_CARDINALITY, GREATER, OPERATION, SLASH_GREATER, TARGET, TARGET_URI,
    TYPE, VALUE,
};
use forms::kind::ByteKind;

fn context_attribute(text: &[u8], at: usize) -> Result<usize, Misfit>
    requires { at ≤ length text.now }
    ensures { Scans (spaced_of (attribute "BusinessContext" context_of)) text.now at result }
{
    let start = some_end(text, at, ByteKind::Space)?;
    let value = opening(text, start, BUSINESS_CONTEXT)?;
    context(text, value)
}

fn context_rest(text: &[u8], at: usize) -> Result<usize, Misfit>
    requires { at ≤ length text.now }
    ensures { Scans context_rest text.now at result }
{
    let end = context_attribute(text, at)?;
    word_after(text, end, ByteKind::Space, GREATER)
}

fn cardinality_rest(text: &[u8], at: usize) -> Result<usize, Misfit>
    requires { at ≤ length text.now }
    ensures { Scans cardinality_rest text.now at result }
{
    let end = spaced(text, at, FORBIDDEN_CARDINALITY, ByteKind::Digit)?;
    word_after(text, end, ByteKind::Space, GREATER)
}

// Steps and members: two names.
fn leaf_rest(text: &[u8], at: usize, m: usize, n: usize) -> Result<usize, Misfit>
    requires { (at ≤ length text.now) × Told m n }
    ensures { Scans (two m n ▸ gap ▸ exactly "/>") text.now at result }
{
    let end = pair(text, at, m, n)?;
    word_after(text, end, ByteKind::Space, SLASH_GREATER)
}

pub fn rest(text: &[u8], at: usize, c: usize) -> Result<usize, Misfit>
    requires { (at ≤ length text.now) × (c < elements) }
    ensures { Scans (rest_of c) text.now at result }
{
    match c {
        2 => context_rest(text, at),
        4 | 5 => leaf_rest(text, at, OPERATION, TARGET_URI),
        6 | 8 => cardinality_rest(text, at),
        10 => leaf_rest(text, at, TYPE, VALUE),
        11 => leaf_rest(text, at, VALUE, TARGET),
        _ => word_after(text, at, ByteKind::Space, GREATER),
    }
}
