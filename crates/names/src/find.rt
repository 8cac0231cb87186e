// Looking up in a good list of names.
ghost use Rattle.std.specs.Prelude.{◌≡◌, true, ◌+◌, ◌<◌, ◌≤◌, length, IfSome};
ghost use Rattle.words.specs.Bytes.{part};
ghost use Rattle.xml.specs.Names.{most_name_bytes, names, good_name, number_of, name_of};
ghost use Rattle.names.specs.Code.{entry_number, entry_name, number_found, name_found};
ghost use Rattle.names.specs.Parts.{is_name, is_number};

use crate::bytes::same_bytes;
use crate::good::Names;
use crate::layout::{BYTES_AT, ENTRY_BYTES, LENGTH_AT, MOST_NAME_BYTES, NUMBER_AT};
use fields::field::u16_at;

// Entry i is this kind's name. Kind and length are compared as one field, before any byte of the name.
fn is_name(list: &[u8], i: usize, kind: u8, name: &[u8]) -> bool
    requires i_bound { (i < names list.now) × (good_name list.now i ≡ true) }
    requires short { length name.now ≤ most_name_bytes }
    ensures { result ≡ is_name list.now kind name.now i }
{
    let n = name.len();
    let at = ENTRY_BYTES * i;
    u16_at(list, at) == u32::from(kind) + 256 * (n as u32)
        && same_bytes(&list[at + BYTES_AT..at + BYTES_AT + n], name)
}

// Entry i is this kind's number.
fn is_number(list: &[u8], i: usize, kind: u8, number: u16) -> bool
    requires { i < names list.now }
    ensures { result ≡ is_number list.now kind number i }
{
    (list[ENTRY_BYTES * i] == kind)
        & (u16_at(list, ENTRY_BYTES * i + NUMBER_AT) == u32::from(number))
}

impl<'a> Names<'a> {
    // The entry of this kind's name, from 0.
    fn entry_named(&self, kind: u8, name: &[u8]) -> Option<usize>
        requires { length name.now ≤ most_name_bytes }
        ensures { (entry_number self.now.list.now result ≡ number_of self.now.list.now kind name.now) × IfSome result (λ i. i < names self.now.list.now) }
    {
        (0..self.list.len() / ENTRY_BYTES).find(|i| is_name(self.list, *i, kind, name))
    }

    // The number of this kind's name that stands in a text, n bytes from a byte on. The kind is a number, and no `NameKind`, since an answer is promised for
    // every number.
    pub fn number_of(&self, kind: u8, text: &[u8], at: usize, n: usize) -> Option<u16>
        requires { at + n ≤ length text.now }
        ensures { number_found result ≡ number_of self.now.list.now kind (part text.now at n) }
    {
        if MOST_NAME_BYTES < n {
            return None;
        }
        let i = self.entry_named(kind, &text[at..at + n])?;
        Some(u16_at(self.list, ENTRY_BYTES * i + NUMBER_AT) as u16)
    }

    // The entry of this kind's number, from 0.
    fn entry_numbered(&self, kind: u8, number: u16) -> Option<usize>
        ensures { (entry_name self.now.list.now result ≡ name_of self.now.list.now kind number) × IfSome result (λ i. i < names self.now.list.now) }
    {
        (0..self.list.len() / ENTRY_BYTES).find(|i| is_number(self.list, *i, kind, number))
    }

    // The name of this kind's number, whatever the kind.
    pub fn name_of(&self, kind: u8, number: u16) -> Option<&'a [u8]>
        ensures { name_found result ≡ name_of self.now.list.now kind number }
    {
        let i = self.entry_numbered(kind, number)?;
        let n = usize::from(self.list[ENTRY_BYTES * i + LENGTH_AT]);
        let at = ENTRY_BYTES * i + BYTES_AT;
        Some(&self.list[at..at + n])
    }
}
