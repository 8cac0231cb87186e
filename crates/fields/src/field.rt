// Numbers in bytes: little-endian fields of 2 and 4 bytes, read and written, and bytes that must be zero.
ghost use Rattle.std.specs.Prelude.{◌≡◌, cond, ◌+◌, ◌-◌, ◌^◌, ◌<◌, ◌≤◌, ◌++◌, length, take, drop};
ghost use Rattle.std.proofs.lemmas.List.Edits.{sets};
ghost use Rattle.std.specs.Int.Bits.{bit_and};
ghost use Rattle.words.specs.Bytes.{u16_at, u32_at, bytes2, bytes4, zero_from, bit as bit_of};

// A byte as a wider number.
pub fn wide(x: u8) -> u32
    ensures { (result ≡ x) × (result < 256) }
{
    x as u32
}

// The field of 2 bytes at a byte.
pub fn u16_at(s: &[u8], at: usize) -> u32
    requires { at + 1 < length s.now }
    ensures { (result ≡ u16_at s.now at) × (result < 65536) }
{
    wide(s[at]) + 256 * wide(s[at + 1])
}

// The field of 4 bytes at a byte.
pub fn u32_at(s: &[u8], at: usize) -> u32
    requires { at + 3 < length s.now }
    ensures { result ≡ u32_at s.now at }
{
    wide(s[at]) + 256 * wide(s[at + 1]) + 65536 * wide(s[at + 2]) + 16777216 * wide(s[at + 3])
}

// The n bytes from a byte on are zero. No early exit: the loop is one that the compiler turns into wide compares.
pub fn zero_from(s: &[u8], at: usize, n: usize) -> bool
    requires { at + n ≤ length s.now }
    ensures { result ≡ zero_from s.now at n }
{
    let mut good = true;
    for i in 0..n {
        good = good & (s[at + i] == 0);
    }
    good
}

// Puts a number's 2 bytes at a byte.
pub fn put_u16(s: &mut [u8], at: usize, x: u32)
    requires { at + 1 < length s.old }
    ensures { s.new ≡ sets s.old at (bytes2 x) }
{
    s[at] = (x % 256) as u8;
    s[at + 1] = (x / 256 % 256) as u8;
}

// Puts a number's 4 bytes at a byte.
pub fn put_u32(s: &mut [u8], at: usize, x: u32)
    requires { at + 3 < length s.old }
    ensures { s.new ≡ sets s.old at (bytes4 x) }
{
    s[at] = (x % 256) as u8;
    s[at + 1] = (x / 256 % 256) as u8;
    s[at + 2] = (x / 65536 % 256) as u8;
    s[at + 3] = (x / 16777216 % 256) as u8;
}

// Bit i of a number.
pub fn bit(x: u32, i: u32) -> bool
    requires { i < 32 }
    ensures { result ≡ bit_of i x }
{
    (x >> i) % 2 == 1
}

// The number with bit i alone, if it is to be set.
pub fn flag(set: bool, i: u32) -> u32
    requires { i < 32 }
    ensures { result ≡ cond set (2 ^ i) 0 }
{
    if set { 1 << i } else { 0 }
}

// The bits of x that y has not.
pub fn without(x: u32, y: u32) -> u32
    ensures { result ≡ x - bit_and x y }
{
    x - (x & y)
}
