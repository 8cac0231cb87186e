// "The reader holds its text and position together".
ghost use Rattle.std.specs.Prelude.{◌≡◌, IfOk, OnErr};
ghost use Rattle.reader.specs.Read.{ReadsTag};

use crate::misfit::Misfit;
use crate::reading::{Tag, tag_at};

#[derive(Clone, Copy)]
pub struct Reader<'a> {
    pub text: &'a [u8],
    pub at: usize,
}

impl<'a> Reader<'a> {
    pub fn new(text: &'a [u8], at: usize) -> Reader<'a>
        ensures { (result.text ≡ text.entry) × (result.at ≡ at) }
    {
        Reader { text, at }
    }

    // The next tag, in a state. The reader goes on behind it, and stays where it is if there is none.
    pub fn next_tag(&mut self, state: usize) -> Result<Tag, Misfit>
        ensures read { ReadsTag state self.old.text.now self.old.at result }
        ensures text { self.new.text ≡ self.old.text }
        ensures place { IfOk result (λ tag. self.new.at ≡ tag.at) }
        ensures stays { OnErr result (self.new.at ≡ self.old.at) }
    {
        let tag = tag_at(self.text, self.at, state)?;
        self.at = tag.at;
        Ok(tag)
    }
}
