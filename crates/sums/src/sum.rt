// The two sums over 32-bit words: "a becomes a + word, then b becomes b + a, both wrapping at 2 to the 32".
ghost use Rattle.std.specs.Prelude.{◌≡◌, ◌+◌, ◌*◌, ◌<◌, ◌≤◌, length};
ghost use Rattle.words.specs.Bytes.{u32_at, part};
ghost use Rattle.words.specs.Sums.{sums, words, add_word, wrap};
ghost use Rattle.sums.specs.Code.{word_bytes, checked_words, sums_of, go_on, word_from, four_of, fours, together as together_of};

use fields::field::u32_at;
use fields::layout::{CHECKED_WORDS, WORD_BYTES};
use std::num::wrapping_add_u32;

// Where four words in a row stand behind the first, and where the next four begin.
const SECOND_AT: usize = WORD_BYTES;

const THIRD_AT: usize = 2 * WORD_BYTES;

const FOURTH_AT: usize = 3 * WORD_BYTES;

const FOUR_BYTES: usize = 4 * WORD_BYTES;

// The state of the two sums.
#[derive(Clone, Copy)]
pub struct Sum {
    pub a: u32,
    pub b: u32,
}

impl Sum {
    // One more word.
    pub fn add(self, word: u32) -> Self
        ensures { sums_of result ≡ add_word (sums_of self) word }
    {
        let a = wrapping_add_u32(self.a, word);
        Sum {
            a,
            b: wrapping_add_u32(self.b, a),
        }
    }

    // The words of a block that its check is over, by the check alone.
    pub fn add_checked(self, check: Sum) -> Self
        ensures { sums_of result ≡ go_on (sums_of self) checked_words (sums_of check) }
    {
        let ahead = self.a as u64 + 4294967295;
        Sum {
            a: wrapped(check.a as u64 + ahead),
            b: wrapped(check.b as u64 + (self.b as u64 + CHECKED_WORDS as u64 * ahead)),
        }
    }
}

// Four states side by side, each from 0: word 4 * i + l goes to state l. In one state a word waits for the word before it; side by side four go on at
// once, and the compiler makes one wide add of them.
#[derive(Clone, Copy)]
pub struct Four {
    pub w: Sum,
    pub x: Sum,
    pub y: Sum,
    pub z: Sum,
}

// One more word, as it stands in bytes.
fn add_at(sum: Sum, s: &[u8], at: usize) -> Sum
    requires { at + word_bytes ≤ length s.now }
    ensures { sums_of result ≡ add_word (sums_of sum) (u32_at s.now at) }
{
    sum.add(u32_at(s, at))
}

// The four states after n words each.
fn sum_fours(s: &[u8], at: usize, n: usize) -> Four
    requires { at + 4 * word_bytes * n ≤ length s.now }
    ensures { four_of result ≡ fours (word_from s.now at) n }
{
    let mut w = Sum { a: 0, b: 0 };
    let mut x = Sum { a: 0, b: 0 };
    let mut y = Sum { a: 0, b: 0 };
    let mut z = Sum { a: 0, b: 0 };
    for i in 0..n {
        let from = at + FOUR_BYTES * i;
        w = add_at(w, s, from);
        x = add_at(x, s, from + SECOND_AT);
        y = add_at(y, s, from + THIRD_AT);
        z = add_at(z, s, from + FOURTH_AT);
    }
    Four { w, x, y, z }
}

// Four numbers together.
fn total(w: u32, x: u32, y: u32, z: u32) -> u64
    ensures { (result ≡ w + x + y + z) × (result < 17179869184) }
{
    w as u64 + x as u64 + y as u64 + z as u64
}

// How far three of the four states are behind the last word.
fn behind(x: u32, y: u32, z: u32) -> u64
    ensures { (result ≡ x + 2 * y + 3 * z) × (result < 1099511627776) }
{
    x as u64 + 2 * (y as u64) + 3 * (z as u64)
}

// A number wrapped at 2 to the 32.
fn wrapped(x: u64) -> u32
    ensures { result ≡ wrap x }
{
    (x % 4294967296) as u32
}

// What the four states come to as one, from a = 1 and b = 0, after n words each.
fn together(four: Four, n: u64) -> Sum
    requires { n < 1152921504606846976 }
    ensures { sums_of result ≡ together_of (four_of four) n }
{
    let a = total(four.w.a, four.x.a, four.y.a, four.z.a);
    let b = total(four.w.b, four.x.b, four.y.b, four.z.b);
    let late = behind(four.x.a, four.y.a, four.z.a);
    Sum {
        a: wrapped(1 + a),
        b: wrapped(4 * n + 4 * b + (1099511627776 - late)),
    }
}

// The sums over n words from a byte on: by fours, and the last ones by themselves.
pub fn sum_words(s: &[u8], at: usize, n: usize) -> Sum
    requires { at + word_bytes * n ≤ length s.now }
    ensures { sums_of result ≡ sums (words (part s.now at (word_bytes * n))) }
{
    let k = n / 4;
    let mut sum = together(sum_fours(s, at, k), k as u64);
    for i in 4 * k..n {
        sum = sum.add(u32_at(s, at + WORD_BYTES * i));
    }
    sum
}
