// A table made fresh, and decisions and closings of any lengths put to it one after another.
ghost use Rattle.std.specs.Prelude.{◌≡◌, [], ◌∷◌, ◌+◌, ◌-◌, ◌*◌, ◌≤◌, min, length};
ghost use Rattle.std.proofs.lemmas.List.Edits.{sets};
ghost use Rattle.register.specs.Calls.{call_step};
ghost use Rattle.register.specs.Demand3.{answers as answers_of, after};
ghost use Rattle.answers.specs.Code.{accepted_of};
ghost use Rattle.answers.specs.Numbers.{four, four_of};
ghost use Rattle.session.specs.Session.{call_of, cut, written, Ran};

use answers::numbers::SodReply;
use checks::calls::make_table;
use closing::calls::close;
use engine::deciding::decide;
use format::answer::Refusal;

// Where a piece of n bytes ends that begins at a byte of these many.
fn end_of(bytes: usize, at: usize, n: usize) -> usize
    requires { at ≤ bytes }
    ensures { result ≡ at + min n (bytes - at) }
{
    if bytes - at < n {
        return bytes;
    }
    at + n
}

// Writes an answer's four numbers.
fn put_answer(answers: &mut [u32], at: usize, answer: SodReply)
    requires { at + 4 ≤ length answers.old }
    ensures { answers.new ≡ sets answers.old at (answer.number ∷ answer.first ∷ answer.second ∷ answer.third ∷ []) }
{
    answers[at] = answer.number;
    answers[at + 1] = answer.first;
    answers[at + 2] = answer.second;
    answers[at + 3] = answer.third;
}

// One call to the engine, of its kind: a number, since `run` promises what a call of any number does.
fn call(policy: &[u8], table: &mut [u8], kind: u8, bytes: &[u8]) -> SodReply
    ensures { (four_of result ≡ four (call_step policy.now table.old (call_of kind bytes.now)).answer) × (table.new ≡ (call_step policy.now table.old (call_of kind bytes.now)).state) }
{
    if kind == 0 {
        return SodReply::from(decide(policy, table, bytes));
    }
    SodReply::from(close(policy, table, bytes))
}

// The calls one after another, each on the table as the last one left it.
fn call_each(
    policy: &[u8],
    table: &mut [u8],
    kinds: &[u8],
    lengths: &[usize],
    bytes: &[u8],
    answers: &mut [u32],
)
    requires { (length kinds.now ≡ length lengths.now) × (length answers.old ≡ 4 * length lengths.now) }
    ensures table_after { table.new ≡ after (call_step policy.now) table.old (cut kinds.now lengths.now bytes.now) }
    ensures answers_after { answers.new ≡ written (answers_of (call_step policy.now) table.old (cut kinds.now lengths.now bytes.now)) }
{
    let mut at: usize = 0;
    for i in 0..lengths.len() {
        let end = end_of(bytes.len(), at, lengths[i]);
        let answer = call(policy, table, kinds[i], &bytes[at..end]);
        put_answer(answers, 4 * i, answer);
        at = end;
    }
}

// Makes the table fresh under the policy, puts the calls to the engine one after another, and writes each answer's four numbers. The calls' bytes stand
// one after another; a call has its kind, 0 for a decision and any other for a closing, and the length of its request or context.
pub fn run(
    policy: &[u8],
    table: &mut [u8],
    kinds: &[u8],
    lengths: &[usize],
    bytes: &[u8],
    answers: &mut [u32],
) -> Result<u32, Refusal>
    requires { (length kinds.now ≡ length lengths.now) × (length answers.old ≡ 4 * length lengths.now) }
    ensures { Ran policy.now table.old (cut kinds.now lengths.now bytes.now) answers.old (accepted_of result) answers.new table.new }
{
    let places = make_table(policy, table)?;
    call_each(policy, table, kinds, lengths, bytes, answers);
    Ok(places)
}
