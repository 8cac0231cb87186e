// A record of a table: a good request, with marks only for rules of the policy that its context fits.
ghost use Rattle.std.specs.Prelude.{◌≡◌, ℕ, ◌+◌, ◌<◌, ◌≤◌, Bool, true, length};
ghost use Rattle.words.specs.Bytes.{part};
ghost use Rattle.format.specs.Layout.{most_rules, request_bytes, record_bytes};
ghost use Rattle.format.specs.Policy.{policy_of};
ghost use Rattle.format.specs.Request.{good_request};
ghost use Rattle.format.specs.Table.{good_marks, good_record};
ghost use Rattle.format.specs.Records.{record_from};
ghost use Rattle.rule_tests.specs.Shapes.{marks_within, marks_pass};

use fields::layout::{CONTEXT_AT, MOST_RULES};
use fields::request::marks;
use fields::sets::RuleSet;
use request_check::request::good_request;
use rule_tests::levels::Levels;
use rule_tests::tests::{By, Tests};

// Each mark is for a rule that there is: asked of the highest, so that the loop over them need not.
fn marks_within(marks: RuleSet, rules: u32) -> bool
    ensures { result ≡ marks_within rules marks.0 }
{
    MOST_RULES - marks.0.leading_zeros() <= rules
}

// A test passes for the rule of each mark that is set: the lowest is tested, and taken from the rest.
fn marks_pass<F: Fn(u32) -> bool>(test: F, marks: RuleSet) -> bool
    requires { (i : ℕ) → i < most_rules → F.pre test i }
    ensures { (f : ℕ → Bool) → ((i : ℕ) (b : Bool) → i < most_rules → F.post test i b → b ≡ f i) → result ≡ marks_pass f marks.0 }
{
    let mut rest = marks.0;
    while rest != 0 {
        if !test(rest.trailing_zeros()) {
            return false;
        }
        rest = rest & (rest - 1);
    }
    true
}

// The marks of a record whose request is good: each is for a rule of the policy that its context fits.
pub fn good_marks(tests: &Tests<'_>, s: &[u8], at: usize) -> bool
    requires { at + record_bytes ≤ length s.now }
    ensures { good_request (part s.now at request_bytes) ≡ true → result ≡ good_marks (policy_of tests.now.policy.image.now) (record_from s.now at) }
{
    let set = marks(s, at);
    if !marks_within(set, tests.policy.rules) {
        return false;
    }
    let levels = Levels::read(s, at + CONTEXT_AT);
    match tests.by {
        By::Shapes(shapes) => marks_pass(|i| shapes[i as usize].fits(levels), set),
        By::Bounds(bounds) => marks_pass(|i| bounds[i as usize].fits(levels), set),
    }
}

// The record at a byte: it has a mark, its request is good, and so are its marks.
pub fn good_record(tests: &Tests<'_>, s: &[u8], at: usize) -> bool
    requires { at + record_bytes ≤ length s.now }
    ensures { result ≡ good_record (policy_of tests.now.policy.image.now) (record_from s.now at) }
{
    !marks(s, at).is_empty() && good_request(s, at) && good_marks(tests, s, at)
}
