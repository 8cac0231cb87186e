// The levels of a context.
ghost use Rattle.std.specs.Prelude.{◌≡◌, List, [], ◌∷◌, ◌++◌, map, length, eqb, IfOk};
ghost use Rattle.format.specs.Rule.{Level};
ghost use Rattle.format.specs.Code.{text_fault_of};
ghost use Rattle.fields.specs.Code.{mark_code};
ghost use Rattle.xml.specs.Tags.{parted};
ghost use Rattle.xml.specs.Read.{Draft, level_of, level_fault, first_of, level_texts};
ghost use Rattle.tags.specs.Code.{value_at, InText};
ghost use Rattle.drafts.specs.Draft.{draft_block};
ghost use Rattle.text_read.specs.Levels.{mark_of};

use crate::source::Source;
use drafts::rule::put_level;
use fields::kind::Mark;
use fields::layout::BLOCK_BYTES;
use format::answer::TextRefusal;
use names::kind::NameKind;
use tags::cut::{next, squeeze, until};
use tags::span::Span;

// "A value of * is mark 2, ! is mark 3, a name mark 1."
fn mark_of(text: &[u8], s: Span) -> Mark
    requires { InText text.now s }
    ensures { mark_code result ≡ mark_of (value_at text.now s) }
{
    let mut value = [0u8; 1];
    if squeeze(text, s.from, s.to, &mut value) != 1 {
        return Mark::Fixed;
    }
    let [b] = value;
    match b {
        b'*' => Mark::Every,
        b'!' => Mark::Each,
        _ => Mark::Fixed,
    }
}

// No byte but white space stands there.
fn blank(text: &[u8], s: Span) -> bool
    requires { InText text.now s }
    ensures { result ≡ eqb (length (value_at text.now s)) 0 }
{
    let mut value = [0u8; 1];
    squeeze(text, s.from, s.to, &mut value) == 0
}

impl Source<'_> {
    // Puts level i, whose text stands between two commas: its type and its value stand round an equals sign. A name that is not listed has no number, 0.
    fn read_level(&self, s: Span, d: &mut [u8; BLOCK_BYTES], i: usize) -> Result<(), TextRefusal>
        requires { InText self.now.text.now s }
        ensures fault { text_fault_of result ≡ level_fault self.now.names.list.now (parted 61 (value_at self.now.text.now s)) }
        ensures level { (ls : List Level) (dr : Draft) → length ls ≡ i → d.old ≡ draft_block ls dr → d.new ≡ draft_block (ls ++ (level_of self.now.names.list.now (parted 61 (value_at self.now.text.now s)) ∷ [])) dr }
    {
        let sign = until(self.text, s.from, s.to, b'=');
        let kind = self.number_in(
            NameKind::ContextType,
            Span {
                from: s.from,
                to: sign,
            },
        );
        let value = next(self.text, sign, s.to, b'=');
        let mark = mark_of(self.text, value);
        let number = match mark {
            Mark::Fixed => self.number_in(NameKind::ContextValue, value),
            _ => Ok(0),
        };
        put_level(d, i, kind.unwrap_or(0), mark, number.unwrap_or(0));
        let named = kind.and(number);
        named.and(Ok(()))
    }

    // Puts the levels of a context, as far as there is room, and counts them. An empty context has none. A loop over places: `split` gives pieces alone, and
    // a level is told by where it stands. Behind a name that is not listed the others are put too.
    pub fn read_levels(
        &self,
        context: Span,
        d: &mut [u8; BLOCK_BYTES],
    ) -> Result<usize, TextRefusal>
        requires { InText self.now.text.now context }
        ensures fault { text_fault_of result ≡ first_of (level_fault self.now.names.list.now) (level_texts (value_at self.now.text.now context)) }
        ensures depth { IfOk result (λ depth. depth ≡ length (level_texts (value_at self.now.text.now context))) }
        ensures levels { (dr : Draft) → d.old ≡ draft_block [] dr → d.new ≡ draft_block (map (level_of self.now.names.list.now) (level_texts (value_at self.now.text.now context))) dr }
    {
        let mut depth = 0;
        if blank(self.text, context) {
            return Ok(depth);
        }
        let mut named = Ok(());
        let mut at = context.from;
        while at <= context.to {
            let end = until(self.text, at, context.to, b',');
            let level = self.read_level(Span { from: at, to: end }, d, depth);
            named = named.and(level);
            depth += 1;
            at = end + 1;
        }
        named.and(Ok(depth))
    }
}
