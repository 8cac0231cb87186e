// Steps of a rule: whether a request is the first, or the last.
ghost use Rattle.std.specs.Prelude.{◌≡◌, not, ◌&&◌, ◌||◌, ◌+◌, ◌<◌, ◌≤◌, eqb};
ghost use Rattle.words.specs.Bytes.{byte_at};
ghost use Rattle.format.specs.Layout.{block_bytes};
ghost use Rattle.format.specs.Rule.{privilege_at, rule_at, is_set};
ghost use Rattle.judge.specs.Tally.{does};
ghost use Rattle.judge.specs.Verdict.{is_first, is_last};

use fields::layout::{
    BLOCK_BYTES, FIRST_STEP_AT, HAS_FIRST_AT, HAS_LAST_AT, LAST_STEP_AT, REQUEST_BYTES,
};
use fields::privilege::Privilege;
use fields::request;

// The step whose flag and whose privilege stand at two bytes of a rule's block is set, and the request does it.
fn does_step(b: &[u8; BLOCK_BYTES], flag: usize, at: usize, q: &[u8; REQUEST_BYTES]) -> bool
    requires { (flag < block_bytes) × (at + 4 ≤ block_bytes) }
    ensures { result ≡ eqb (byte_at b.now flag) 1 && does (privilege_at b.now at) q.now }
{
    (b[flag] == 1) & (request::privilege(q, 0) == Privilege::read(b, at))
}

// The request is the rule's first step.
pub fn is_first(b: &[u8; BLOCK_BYTES], q: &[u8; REQUEST_BYTES]) -> bool
    ensures { result ≡ is_first (rule_at b.now) q.now }
{
    does_step(b, HAS_FIRST_AT, FIRST_STEP_AT, q)
}

// The request is the rule's last step.
pub fn is_last(b: &[u8; BLOCK_BYTES], q: &[u8; REQUEST_BYTES]) -> bool
    ensures { result ≡ is_last (rule_at b.now) q.now }
{
    does_step(b, HAS_LAST_AT, LAST_STEP_AT, q)
}

// The rule needs no open run place to judge the request: it has no first step, or this is it.
pub fn needs_no_run(b: &[u8; BLOCK_BYTES], q: &[u8; REQUEST_BYTES]) -> bool
    ensures { result ≡ not (is_set (rule_at b.now).first_step) || is_first (rule_at b.now) q.now }
{
    (b[HAS_FIRST_AT] != 1) | is_first(b, q)
}
