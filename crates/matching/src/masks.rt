// The run places of all rules at once: rules as bits of a number, rule i + 1 at bit i.
ghost use Rattle.std.specs.Prelude.{◌≡◌, ◌+◌, ◌<◌, ◌≤◌, length};
ghost use Rattle.words.specs.Bytes.{part};
ghost use Rattle.format.specs.Layout.{request_bytes};
ghost use Rattle.format.specs.Policy.{policy_of};
ghost use Rattle.matching.specs.Masks.{is_each, each_at, EachOf, apart_at, apart_beside, apart_by, together_by};

use fields::field::{flag, u16_at};
use fields::layout::{
    CONTEXT_LEVEL_BYTES, CONTEXT_VALUE_AT, DEPTH_AT, EACH, LEVEL_BYTES, LEVEL_MARK_AT,
    REQUEST_BYTES,
};
use fields::sets::RuleSet;
use policy_check::policy::Policy;

// The rules that have mark 3, each, at a level, for each of the four levels.
#[derive(Clone, Copy)]
pub struct Each {
    pub first: RuleSet,
    pub second: RuleSet,
    pub third: RuleSet,
    pub fourth: RuleSet,
}

// Rule i has mark 3 at level l.
fn is_each(policy: &Policy<'_>, l: usize, i: u32) -> bool
    requires { (l < 4) × (i < policy.now.rules) }
    ensures { result ≡ is_each (policy_of policy.now.image.now) l i }
{
    let b = policy.rule(i);
    (l < usize::from(b[DEPTH_AT])) & (b[LEVEL_MARK_AT + LEVEL_BYTES * l] == EACH)
}

// The rules that have mark 3 at level l.
fn each_at(policy: &Policy<'_>, l: usize) -> RuleSet
    requires { l < 4 }
    ensures { result.0 ≡ each_at (policy_of policy.now.image.now) l }
{
    let rules = policy.rules;
    let mut mask: u32 = 0;
    for i in 0..rules {
        mask = mask + flag(is_each(policy, l, i), i);
    }
    RuleSet(mask)
}

// The rules that have mark 3, level by level.
pub fn each_of(policy: &Policy<'_>) -> Each
    ensures { EachOf (policy_of policy.now.image.now) result }
{
    Each {
        first: each_at(policy, 0),
        second: each_at(policy, 1),
        third: each_at(policy, 2),
        fourth: each_at(policy, 3),
    }
}

// The rules of a mask, if the request q and the one at a byte differ in value at level l.
fn apart_at(q: &[u8; REQUEST_BYTES], s: &[u8], at: usize, l: usize, mask: RuleSet) -> RuleSet
    requires { (at + request_bytes ≤ length s.now) × (l < 4) }
    ensures { result.0 ≡ apart_at q.now (part s.now at request_bytes) l mask.0 }
{
    if u16_at(q, CONTEXT_VALUE_AT + CONTEXT_LEVEL_BYTES * l)
        == u16_at(s, at + CONTEXT_VALUE_AT + CONTEXT_LEVEL_BYTES * l)
    {
        RuleSet(0)
    } else {
        mask
    }
}

// Those that tell the two requests apart at another level than the second.
fn apart_beside(each: Each, q: &[u8; REQUEST_BYTES], s: &[u8], at: usize) -> RuleSet
    requires { at + request_bytes ≤ length s.now }
    ensures { result.0 ≡ apart_beside each q.now (part s.now at request_bytes) }
{
    apart_at(q, s, at, 0, each.first)
        .or(apart_at(q, s, at, 2, each.third))
        .or(apart_at(q, s, at, 3, each.fourth))
}

// Of these rules, those under which the request q and the one at a byte share a run place. The second level comes first, and is mostly enough:
// a job tells more requests apart than its depot, and few rules count by what is inside a job.
pub fn together(each: Each, rules: RuleSet, q: &[u8; REQUEST_BYTES], s: &[u8], at: usize) -> RuleSet
    requires { at + request_bytes ≤ length s.now }
    ensures { result.0 ≡ together_by each rules.0 q.now (part s.now at request_bytes) }
{
    let near = rules.without(apart_at(q, s, at, 1, each.second));
    if near.is_empty() {
        return near;
    }
    near.without(apart_beside(each, q, s, at))
}

// The rules under which the request q and the one at a byte have different run places.
pub fn apart(each: Each, q: &[u8; REQUEST_BYTES], s: &[u8], at: usize) -> RuleSet
    requires { at + request_bytes ≤ length s.now }
    ensures { result.0 ≡ apart_by each q.now (part s.now at request_bytes) }
{
    apart_beside(each, q, s, at).or(apart_at(q, s, at, 1, each.second))
}

// What `together` gives, for a set of rules that is asked of many records: levels behind the first are looked at only if one of the rules tells run
// places apart there.
pub fn together_of(
    each: Each,
    rules: RuleSet,
    q: &[u8; REQUEST_BYTES],
    s: &[u8],
    at: usize,
) -> RuleSet
    requires { at + request_bytes ≤ length s.now }
    ensures { result.0 ≡ together_by each rules.0 q.now (part s.now at request_bytes) }
{
    let within = each.second.or(each.third).or(each.fourth);
    if within.and(rules).is_empty() {
        return rules.without(apart_at(q, s, at, 0, each.first));
    }
    together(each, rules, q, s, at)
}
