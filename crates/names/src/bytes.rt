// The bytes of names: which they may be, and whether two names have the same.
ghost use Rattle.std.specs.Prelude.{◌≡◌, length};
ghost use Rattle.words.specs.Lists.{same_list};
ghost use Rattle.forms.specs.Form.{name_byte};

use forms::kind::{ByteKind, is_of};

// A byte of a name.
pub fn name_byte(b: u8) -> bool
    ensures { result ≡ name_byte b }
{
    is_of(ByteKind::Name, b)
}

// Two names of one length are the same. No early exit: the loop is one that the compiler turns into wide compares.
fn all_same(a: &[u8], b: &[u8]) -> bool
    requires { length a.now ≡ length b.now }
    ensures { result ≡ same_list a.now b.now }
{
    let mut same = true;
    for i in 0..a.len() {
        same = same & (a[i] == b[i]);
    }
    same
}

// The same, with a look at the last byte first: names of one length mostly differ there, as numbered ones do.
pub fn same_bytes(a: &[u8], b: &[u8]) -> bool
    requires { length a.now ≡ length b.now }
    ensures { result ≡ same_list a.now b.now }
{
    a.last() == b.last() && all_same(a, b)
}
