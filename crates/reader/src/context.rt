// A context, its closing quote included: "No white space stands at a context's beginning or end".
ghost use Rattle.std.specs.Prelude.{◌≤◌, length};
ghost use Rattle.forms.specs.Form.{of_name};
ghost use Rattle.xml.specs.Grammar.{◌▸◌, text as exactly, gap, level as level_of, context as context_of};
ghost use Rattle.reader.specs.Parts.{some, after_level, level_value};
ghost use Rattle.reader.specs.Scan.{Scans, Leads};

use crate::misfit::Misfit;
use crate::run::{run_end, some_end};
use crate::scan::word_after;
use crate::word::{COMMA, EQUALS, QUOTE, starts};
use forms::kind::ByteKind;

// A level's type and its sign.
fn level_type(text: &[u8], at: usize) -> Result<usize, Misfit>
    requires { at ≤ length text.now }
    ensures { Scans (some of_name ▸ gap ▸ exactly "=") text.now at result }
{
    let end = some_end(text, at, ByteKind::Name)?;
    word_after(text, end, ByteKind::Space, EQUALS)
}

// A level's value, from its first byte on.
fn level_value(text: &[u8], at: usize) -> Result<usize, Misfit>
    requires { at ≤ length text.now }
    ensures { Leads (level_value ▸ after_level) after_level text.now at result }
{
    match text.get(at) {
        Some(b'*' | b'!') => Ok(at + 1),
        _ => some_end(text, at, ByteKind::Name),
    }
}

fn level(text: &[u8], at: usize) -> Result<usize, Misfit>
    requires { at ≤ length text.now }
    ensures { Leads (level_of ▸ after_level) after_level text.now at result }
{
    let sign = level_type(text, at)?;
    level_value(text, run_end(text, sign, ByteKind::Space))
}

pub fn context(text: &[u8], at: usize) -> Result<usize, Misfit>
    requires { at ≤ length text.now }
    ensures { Scans (context_of ▸ exactly "\"") text.now at result }
{
    if starts(QUOTE, text, at) {
        return Ok(at + 1);
    }
    let mut p = at;
    loop {
        let end = level(text, p)?;
        if starts(QUOTE, text, end) {
            return Ok(end + 1);
        }
        let comma = word_after(text, end, ByteKind::Space, COMMA)?;
        p = run_end(text, comma, ByteKind::Space);
    }
}
