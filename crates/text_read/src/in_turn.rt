// The tags of a text in turn.
ghost use Rattle.std.specs.Prelude.{◌≡◌, List, map, ℕ, ◌-◌, ◌≤◌, length, take};
ghost use Rattle.format.specs.Block.{blocks};
ghost use Rattle.format.specs.Policy.{rule_count};
ghost use Rattle.xml.specs.Tags.{tags_in, tag_of};
ghost use Rattle.xml.specs.Read.{Reading, nothing_read};
ghost use Rattle.tags.specs.Code.{InText, tag_at, TagIn};
ghost use Rattle.text_read.specs.Stands.{Stands, TurnedBy, ReadIs};

use crate::sheet::Sheet;
use crate::source::Source;
use format::answer::TextRefusal;
use tags::cut::until;
use tags::tag::{Tag, tag_of};

impl Sheet {
    // One tag, whatever it is.
    fn take_tag(&mut self, source: &Source<'_>, tag: Tag) -> Result<(), TextRefusal>
        requires { TagIn source.now.text.now tag × InText source.now.text.now self.old.context }
        ensures { (second : List ℕ) (s : Reading) → source.now.permissions ≡ blocks second - rule_count second → Stands source.now.text.now s self.old → TurnedBy source.now second s (tag_at source.now.text.now tag) self.new result }
    {
        match tag {
            Tag::StartSet | Tag::Other => Ok(()),
            Tag::EndSet => self.take_set_end(source),
            Tag::StartRule(context) => {
                self.take_rule_start(context);
                Ok(())
            }
            Tag::EndRule => self.take_rule_end(source),
            Tag::Privilege(place, operation, target) => {
                self.take_privilege(source, place, operation, target)
            }
            Tag::StartExclusion(kind, m) => {
                self.take_exclusion_start(source.text, kind, m);
                Ok(())
            }
            Tag::EndExclusion => self.take_exclusion_end(),
            Tag::Role(value) => self.take_role(source, value),
        }
    }

    // All tags that end before a byte, up to the first with a fault. A loop over places: `split` gives pieces alone, and what a tag says is told by where its
    // values stand.
    pub fn read_tags(&mut self, source: &Source<'_>, end: usize) -> Result<(), TextRefusal>
        requires { (end ≤ length source.now.text.now) × Stands source.now.text.now nothing_read self.old }
        ensures { (second : List ℕ) → source.now.permissions ≡ blocks second - rule_count second → ReadIs source.now.names.list.now second source.now.room (map tag_of (tags_in (take end source.now.text.now))) self.new result }
    {
        let mut at = 0;
        while at < end {
            let close = until(source.text, at, end, b'>');
            if close == end {
                return Ok(());
            }
            let tag = tag_of(source.text, at, close);
            self.take_tag(source, tag)?;
            at = close + 1;
        }
        Ok(())
    }
}
