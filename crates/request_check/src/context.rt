// The check of a context, that of a request or one that is handed over by itself, and how many levels it uses. The words of 4 bytes that hold its levels
// are read whole and parted after that: a table has many to look at.
ghost use Rattle.std.specs.Prelude.{◌≡◌, cond, ◌+◌, ◌≤◌, length, IfOk};
ghost use Rattle.words.specs.Bytes.{part};
ghost use Rattle.format.specs.Layout.{context_bytes};
ghost use Rattle.format.specs.Request.{depth_of, good_context};
ghost use Rattle.format.specs.Context.{context_fault};
ghost use Rattle.request_check.specs.RequestWords.{used_word, good_last_words, good_level_words, used_words};
ghost use Rattle.format.specs.Code.{fault_of};

use fields::field::u32_at;
use fields::layout::{CONTEXT_BYTES, CONTEXT_LEVEL_BYTES};
use format::answer::Refusal;

// Where the words of a context's levels stand behind its first.
const SECOND_AT: usize = CONTEXT_LEVEL_BYTES;

const THIRD_AT: usize = 2 * CONTEXT_LEVEL_BYTES;

const FOURTH_AT: usize = 3 * CONTEXT_LEVEL_BYTES;

// Both numbers of a word are from 1.
fn used(word: u32) -> bool
    ensures { result ≡ used_word word }
{
    (word % 65536 != 0) & (word / 65536 != 0)
}

// The last two levels, behind two used ones.
fn good_last_levels(y: u32, z: u32) -> bool
    ensures { result ≡ good_last_words y z }
{
    if y == 0 {
        return z == 0;
    }
    if !used(y) {
        return false;
    }
    (z == 0) | used(z)
}

// The four levels: used ones come first, and the others are zero. What fails ends the test: on a good table nothing does.
fn good_levels(w: u32, x: u32, y: u32, z: u32) -> bool
    ensures { result ≡ good_level_words w x y z }
{
    if w == 0 {
        return (x == 0) & (y == 0) & (z == 0);
    }
    if !used(w) {
        return false;
    }
    if x == 0 {
        return (y == 0) & (z == 0);
    }
    if !used(x) {
        return false;
    }
    good_last_levels(y, z)
}

// 1 for a used level, and 0 for any other.
fn used_count(word: u32) -> u32
    ensures { (result ≡ cond (used_word word) 1 0) × (result ≤ 1) }
{
    if used(word) { 1 } else { 0 }
}

// How many of the four levels are used.
fn used_levels(w: u32, x: u32, y: u32, z: u32) -> u32
    ensures { result ≡ used_words w x y z }
{
    used_count(w) + used_count(x) + used_count(y) + used_count(z)
}

// The depth of the context of 16 bytes that begins at a byte.
pub fn depth(s: &[u8], at: usize) -> u32
    requires { at + context_bytes ≤ length s.now }
    ensures { result ≡ depth_of (part s.now at context_bytes) }
{
    used_levels(
        u32_at(s, at),
        u32_at(s, at + SECOND_AT),
        u32_at(s, at + THIRD_AT),
        u32_at(s, at + FOURTH_AT),
    )
}

// Its levels.
pub fn good_context(s: &[u8], at: usize) -> bool
    requires { at + context_bytes ≤ length s.now }
    ensures { result ≡ good_context (part s.now at context_bytes) }
{
    good_levels(
        u32_at(s, at),
        u32_at(s, at + SECOND_AT),
        u32_at(s, at + THIRD_AT),
        u32_at(s, at + FOURTH_AT),
    )
}

// The check of a context that is handed over by itself: its length, and then its levels. One that has passed comes back as an array.
pub fn context_fault(c: &[u8]) -> Result<&[u8; CONTEXT_BYTES], Refusal>
    ensures fault { fault_of result ≡ context_fault c.now }
    ensures context { IfOk result (λ context. context.now ≡ c.now) }
{
    let Ok(context) = <&[u8; CONTEXT_BYTES]>::try_from(c) else {
        return Err(Refusal::Length);
    };
    if !good_context(context, 0) {
        return Err(Refusal::Field);
    }
    Ok(context)
}
