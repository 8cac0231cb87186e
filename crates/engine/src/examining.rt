// What a decision asks before it grants, in document 01's order: the policy's numbers, the table's, the request's, then steps 1 to 3 of the judge.
// Nothing is written: a decision goes on from here to steps 4 and 5, a preview to what they would answer.
ghost use Rattle.engine.specs.Examined.{ExaminedIs};

use clearing::ending::Ending;
use fields::layout::REQUEST_BYTES;
use fields::sets::RuleSet;
use format::answer::Refusal;
use matching::masks::each_of;
use policy_check::policy::Policy;
use request_check::request::request_fault;
use sums::sum::Sum;
use table_check::tables::{record_count, table_fault};
use verdict::verdicts::verdict_of;

// A request that has passed: the policy's stamp, how many records the table has, and what a grant ends and gives.
#[derive(Clone, Copy)]
pub struct Pass<'a> {
    pub request: &'a [u8; REQUEST_BYTES],
    pub stamp: Sum,
    pub held: usize,
    pub ending: Ending,
    pub gives: RuleSet,
}

// Examines one request: the refusal that a decision gives, or a request that has passed.
pub fn examine<'a>(policy: &[u8], table: &[u8], request: &'a [u8]) -> Result<Pass<'a>, Refusal>
    ensures { ExaminedIs policy.now table.now request.now result }
{
    let checked = Policy::check(policy)?;
    let stamp = checked.stamp();
    table_fault(&checked, stamp, table)?;
    let asked = request_fault(request)?;
    let held = record_count(table);
    let each = each_of(&checked);
    let verdict = verdict_of(&checked, each, asked, table, held)?;
    Ok(Pass {
        request: asked,
        stamp,
        held,
        ending: Ending {
            rules: verdict.effect.ends,
            each,
            near: verdict.near,
        },
        gives: verdict.effect.gives,
    })
}
