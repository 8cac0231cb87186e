// What each tag does to what is read.
ghost use Rattle.std.specs.Prelude.{◌≡◌, ◌&&◌, List, ℕ, ◌+◌, ◌-◌, ◌*◌, ◌≤◌, leb};
ghost use Rattle.format.specs.Layout.{block_bytes, most_rules, policy_blocks};
ghost use Rattle.format.specs.Block.{blocks};
ghost use Rattle.format.specs.Rule.{Privilege as Given};
ghost use Rattle.format.specs.Policy.{rule_count};
ghost use Rattle.fields.specs.Code.{exclusion_code, privilege_of as privilege_here};
ghost use Rattle.xml.specs.Tags.{end_set, end_rule, end_exclusion, role};
ghost use Rattle.xml.specs.Read.{Reading, nothing_read, in_rule, in_exclusion, new_draft, new_members, decimal};
ghost use Rattle.tags.specs.Code.{value_at, InText, privilege_as};
ghost use Rattle.drafts.specs.Draft.{PrivilegeFits};
ghost use Rattle.text_read.specs.Stands.{with_privilege, Stands, Turned, TurnedBy};

use crate::sheet::Sheet;
use crate::source::Source;
use drafts::exclusion::{add_privilege, add_role, end_exclusion, no_exclusion, start_exclusion};
use drafts::kept::{KEPT_BYTES, keep_rule};
use drafts::rule::{Step, end_rule, set_step, start_rule};
use fields::kind::ExclusionKind;
use fields::layout::{BLOCK_BYTES, HIGHEST_ROLE, MOST_RULES, POLICY_BLOCKS};
use fields::privilege::Privilege;
use format::answer::TextRefusal;
use tags::number::cardinality;
use tags::span::Span;
use tags::tag::Place;

// So many blocks make a policy, and there is room for them.
fn fits(n: usize, room: usize) -> bool
    requires { n ≤ most_rules + policy_blocks }
    ensures { result ≡ (leb 1 n && leb n policy_blocks && leb (block_bytes * n) room) }
{
    (1 <= n) & (n <= POLICY_BLOCKS) & (BLOCK_BYTES * n <= room)
}

impl Sheet {
    // Nothing is read yet.
    pub fn new() -> Sheet
        ensures { (t : List ℕ) → Stands t nothing_read result }
    {
        Sheet {
            exclusion: [0; BLOCK_BYTES],
            rule: [0; BLOCK_BYTES],
            context: Span { from: 0, to: 0 },
            rules: 0,
            kept: [0; KEPT_BYTES],
        }
    }

    // The set's end: how many blocks there will be, and room for them.
    pub fn take_set_end(&self, source: &Source<'_>) -> Result<(), TextRefusal>
        ensures { (second : List ℕ) (s : Reading) → source.now.permissions ≡ blocks second - rule_count second → Stands source.now.text.now s self.now → TurnedBy source.now second s end_set self.now result }
    {
        if self.rules > MOST_RULES as usize || !fits(self.rules + source.permissions, source.room) {
            return Err(TextRefusal::NotWithin);
        }
        Ok(())
    }

    // A rule begins. Its context is looked at when it ends.
    pub fn take_rule_start(&mut self, context: Span)
        ensures { (t : List ℕ) (s : Reading) → InText t context → Stands t s self.old → Stands t (in_rule s (new_draft (value_at t context))) self.new }
    {
        start_rule(&mut self.rule);
        self.context = context;
    }

    // The rule ends: its context's names, then its limits. Then no rule is being read.
    pub fn take_rule_end(&mut self, source: &Source<'_>) -> Result<(), TextRefusal>
        requires { InText source.now.text.now self.old.context }
        ensures { (second : List ℕ) (s : Reading) → Stands source.now.text.now s self.old → TurnedBy source.now second s end_rule self.new result }
    {
        let depth = source.read_levels(self.context, &mut self.rule)?;
        end_rule(&mut self.rule, depth)?;
        keep_rule(&mut self.kept, self.rules, &self.rule);
        start_rule(&mut self.rule);
        self.context = Span { from: 0, to: 0 };
        self.rules = self.rules.saturating_add(1).min(MOST_RULES as usize + 1);
        Ok(())
    }

    // An exclusion begins.
    pub fn take_exclusion_start(&mut self, text: &[u8], kind: ExclusionKind, m: Span)
        requires { InText text.now m }
        ensures { (t : List ℕ) (s : Reading) → Stands t s self.old → Stands t (in_exclusion s (new_members (exclusion_code kind) (decimal (value_at text.now m)))) self.new }
    {
        start_exclusion(
            &mut self.exclusion,
            kind.code(),
            cardinality(text, m.from, m.to),
        );
    }

    // A role is a member.
    pub fn take_role(&mut self, source: &Source<'_>, value: Span) -> Result<(), TextRefusal>
        requires { InText source.now.text.now value }
        ensures { (second : List ℕ) (s : Reading) → Stands source.now.text.now s self.old → TurnedBy source.now second s (role (value_at source.now.text.now value)) self.new result }
    {
        let role = source.role_in(value)?;
        if HIGHEST_ROLE < role.0 {
            return Err(TextRefusal::NotWithin);
        }
        add_role(&mut self.exclusion, role);
        Ok(())
    }

    // Puts a privilege where it belongs: the steps into the rule, a member into the exclusion.
    fn put_privilege(&mut self, place: Place, p: Privilege)
        ensures { (t : List ℕ) (s : Reading) (q : Given) → privilege_here p ≡ q → PrivilegeFits q → Stands t s self.old → Stands t (with_privilege place s q) self.new }
    {
        match place {
            Place::First => set_step(&mut self.rule, Step::First, p),
            Place::Last => set_step(&mut self.rule, Step::Last, p),
            Place::Member => add_privilege(&mut self.exclusion, p),
        }
    }

    // A step, or a privilege that is a member.
    pub fn take_privilege(
        &mut self,
        source: &Source<'_>,
        place: Place,
        operation: Span,
        target: Span,
    ) -> Result<(), TextRefusal>
        requires { InText source.now.text.now operation × InText source.now.text.now target }
        ensures { (second : List ℕ) (s : Reading) → Stands source.now.text.now s self.old → TurnedBy source.now second s (privilege_as place (value_at source.now.text.now operation) (value_at source.now.text.now target)) self.new result }
    {
        let p = source.privilege_in(operation, target)?;
        self.put_privilege(place, p);
        Ok(())
    }

    // The exclusion ends. Then none is being read.
    pub fn take_exclusion_end(&mut self) -> Result<(), TextRefusal>
        ensures { (t l second : List ℕ) (room : ℕ) (s : Reading) → Stands t s self.old → Turned t l second room s end_exclusion self.new result }
    {
        end_exclusion(&self.exclusion, &mut self.rule)?;
        no_exclusion(&mut self.exclusion);
        Ok(())
    }
}
