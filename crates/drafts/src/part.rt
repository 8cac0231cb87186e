// What both blocks are written with: two numbers of 2 bytes side by side, and a count that stays within a byte.
ghost use Rattle.std.specs.Prelude.{◌≡◌, ◌++◌, ◌+◌, ◌≤◌, min, length};
ghost use Rattle.words.specs.Bytes.{bytes2};
ghost use Rattle.table_write.specs.Writing.{over};
ghost use Rattle.drafts.specs.Draft.{highest_count};

use fields::field::put_u32;

// A count that is above every limit, and is not counted further.
const HIGHEST_COUNT: u8 = 9;

// Puts two numbers of 2 bytes at a byte.
pub fn put_pair(s: &mut [u8], at: usize, x: u16, y: u16)
    requires { at + 4 ≤ length s.old }
    ensures { s.new ≡ over s.old at 4 (bytes2 x ++ bytes2 y) }
{
    put_u32(s, at, u32::from(x) + 65536 * u32::from(y));
}

// One more, up to the highest count.
pub fn counted(n: u8) -> u8
    ensures { result ≡ min highest_count (n + 1) }
{
    n.saturating_add(1).min(HIGHEST_COUNT)
}
