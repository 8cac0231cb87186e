// The levels of a context as the words of 32 bits that hold them, a level's type the low half: two words in each number, so that two levels are tested at once.
ghost use Rattle.std.specs.Prelude.{◌≡◌, ◌+◌, ◌*◌, ◌≤◌, length};
ghost use Rattle.words.specs.Bytes.{u32_at};
ghost use Rattle.format.specs.Layout.{context_bytes, context_level_bytes};
ghost use Rattle.rule_tests.specs.Shapes.{levels_of};

use fields::field::u32_at;
use fields::layout::CONTEXT_LEVEL_BYTES;

// Levels 0 and 1 of a context, and levels 2 and 3.
#[derive(Clone, Copy, Debug, PartialEq, Eq)]
pub struct Levels {
    pub low: u64,
    pub high: u64,
}

// Two words as one number, the first of them its low half.
pub fn paired(first: u32, second: u32) -> u64
    ensures { result ≡ first + 4294967296 * second }
{
    u64::from(first) + 4294967296 * u64::from(second)
}

impl Levels {
    // Those of the context that begins at a byte.
    pub fn read(s: &[u8], at: usize) -> Levels
        requires { at + context_bytes ≤ length s.now }
        ensures { result ≡ levels_of (λ l. u32_at s.now (at + context_level_bytes * l)) }
    {
        Levels {
            low: paired(u32_at(s, at), u32_at(s, at + CONTEXT_LEVEL_BYTES)),
            high: paired(
                u32_at(s, at + 2 * CONTEXT_LEVEL_BYTES),
                u32_at(s, at + 3 * CONTEXT_LEVEL_BYTES),
            ),
        }
    }
}
