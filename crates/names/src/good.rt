// The check of a list of names.
ghost use Rattle.std.specs.Prelude.{◌≡◌, true, ℕ, ◌+◌, ◌<◌, ◌≤◌, IfOk};
ghost use Rattle.words.specs.Lists.{all_below};
ghost use Rattle.words.specs.Bytes.{byte_at};
ghost use Rattle.format.specs.Code.{text_fault_of};
ghost use Rattle.xml.specs.Names.{most_name_bytes, names, name_in, length_of, good_name, apart as apart_of, good_names, names_fault};
ghost use Rattle.names.specs.Parts.{good_byte, good_bytes, new_name, good_part};

use crate::bytes::{name_byte, same_bytes};
use crate::layout::{
    BYTES_AT, ENTRY_BYTES, LENGTH_AT, MOST_NAME_BYTES, MOST_NAMES, NUMBER_AT, TARGET_NAMES,
    TYPE_NAMES,
};
use fields::field::u16_at;
use format::answer::TextRefusal;

// A byte of an entry: one of the name, or zero after it.
fn good_byte(b: u8, inside: bool) -> bool
    ensures { result ≡ good_byte b inside }
{
    if inside { name_byte(b) } else { b == 0 }
}

// The 60 bytes that entry i has for its name. No early exit: the loop is one that the compiler turns into wide compares, and takes half the time.
fn good_bytes(list: &[u8], i: usize) -> bool
    requires { i < names list.now }
    ensures { result ≡ good_bytes list.now i }
{
    let n = usize::from(list[ENTRY_BYTES * i + LENGTH_AT]);
    let mut good = true;
    for j in 0..MOST_NAME_BYTES {
        good = good & good_byte(list[ENTRY_BYTES * i + BYTES_AT + j], j < n);
    }
    good
}

// Entry i by itself.
fn good_name(list: &[u8], i: usize) -> bool
    requires { i < names list.now }
    ensures { result ≡ good_name list.now i }
{
    let kind = list[ENTRY_BYTES * i];
    let n = list[ENTRY_BYTES * i + LENGTH_AT];
    (TYPE_NAMES <= kind)
        & (kind <= TARGET_NAMES)
        & (1 <= n)
        & (n <= MOST_NAME_BYTES as u8)
        & (u16_at(list, ENTRY_BYTES * i + NUMBER_AT) != 0)
        & good_bytes(list, i)
}

// Entries j and i have neither name nor number in common, or are of two kinds. Most pairs are told apart before a byte of their names is read.
fn apart(list: &[u8], j: usize, i: usize) -> bool
    requires j_bound { (j < names list.now) × (i < names list.now) }
    requires j_bound_2 { (length_of list.now j ≤ most_name_bytes) × (length_of list.now i ≤ most_name_bytes) }
    ensures { result ≡ apart_of (name_in list.now j) (name_in list.now i) }
{
    let x = ENTRY_BYTES * j;
    let y = ENTRY_BYTES * i;
    if list[x] != list[y] {
        return true;
    }
    if u16_at(list, x + NUMBER_AT) == u16_at(list, y + NUMBER_AT) {
        return false;
    }
    let n = usize::from(list[x + LENGTH_AT]);
    if n != usize::from(list[y + LENGTH_AT]) {
        return true;
    }
    !same_bytes(
        &list[x + BYTES_AT..x + BYTES_AT + n],
        &list[y + BYTES_AT..y + BYTES_AT + n],
    )
}

// Entry i is apart from each before it.
fn new_name(list: &[u8], i: usize) -> bool
    requires { (i < names list.now) × ((j : ℕ) → j ≤ i → length_of list.now j ≤ most_name_bytes) }
    ensures { result ≡ new_name list.now i }
{
    (0..i).all(|j| apart(list, j, i))
}

// The n entries from one on, if all before it are good by themselves. They are compared only after each of them by itself was good.
fn good_part(list: &[u8], from: usize, n: usize) -> bool
    requires { (from + n ≤ names list.now) × (all_below from (good_name list.now) ≡ true) }
    ensures { result ≡ good_part list.now from n }
{
    (0..n).all(|i| good_name(list, from + i)) && (0..n).all(|i| new_name(list, from + i))
}

// The whole list, of any length. The first entry is tested, then one more, two, four and so on: each time as many as have passed. So an early entry that is bad
// or repeats another is refused about as soon as if they were tested one by one, and most entries are still tested many at a time.
pub fn good_names(list: &[u8]) -> bool
    ensures { result ≡ good_names list.now }
{
    let n = list.len() / ENTRY_BYTES;
    if ENTRY_BYTES * n != list.len() || MOST_NAMES < n {
        return false;
    }
    let mut from = 0;
    while from < n {
        let few = from.max(1).min(n - from);
        if !good_part(list, from, few) {
            return false;
        }
        from += few;
    }
    true
}

// A list of names that has passed its check. That its elements are bytes is told of a list that a function is lent, but not of one within a type.
#[derive(Clone, Copy)]
pub struct Names<'a> {
    pub list: &'a [u8],
    ghost good: { good_names list.now ≡ true },
    ghost bytes: { (i : ℕ) → byte_at list.now i < 256 },
}

impl<'a> Names<'a> {
    // Any bytes as a list of names.
    pub fn check(list: &'a [u8]) -> Result<Names<'a>, TextRefusal>
        ensures fault { text_fault_of result ≡ names_fault list.now }
        ensures list { IfOk result (λ checked. checked.list.now ≡ list.now) }
    {
        if !good_names(list) {
            return Err(TextRefusal::NotListed);
        }
        Ok(Names { list })
    }
}
