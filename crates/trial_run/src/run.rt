// The trial run of document 01: a policy, two bytes for the table's blocks, then requests to the end, from a reader; a line for each request to a
// writer. What matters is in the library `engine`: nothing here decides anything.
ghost use Rattle.std.specs.Prelude.{◌≡◌, ◌*◌, ◌≤◌, length, take, IfOk, IfSome, OnOk, OnErr};
ghost use Rattle.std.specs.Io.KnownBytes.{Appends};
ghost use Rattle.format.specs.Layout.{block_bytes, policy_blocks, table_blocks};
ghost use Rattle.format.specs.Calls.{make_table};
ghost use Rattle.answers.specs.Code.{granted_of};
ghost use Rattle.trial_run.specs.Reading.{ReadsFront, LosesNone, ReadsBlocks, promised, lent, policy_size};
ghost use Rattle.trial_run.specs.Text.{number, line, decided, Decided, most_requests, session_text, trial_text};

use answers::numbers::SodReply;
use checks::calls::make_table;
use engine::deciding::decide;
use fields::layout::{BLOCK_BYTES, POLICY_BLOCKS, REQUEST_BYTES, TABLE_BLOCKS, TOTAL_AT};
use format::answer::{Grant, Refusal};
use std::io;
use std::io::{Read, Write};

// How many blocks of a policy to read in all, by what its first block promises: one at least, 64 at most.
fn promised(low: u8, high: u8) -> usize
    ensures within { (1 ≤ result) × (result ≤ policy_blocks) }
    ensures value { result ≡ promised low high }
{
    (usize::from(low) + 256 * usize::from(high)).clamp(1, POLICY_BLOCKS)
}

// How many blocks to lend for a table: none for a number that no table has.
fn lent(low: u8, high: u8) -> usize
    ensures within { result ≤ table_blocks }
    ensures value { result ≡ lent low high }
{
    let n = usize::from(low) + 256 * usize::from(high);
    if TABLE_BLOCKS < n { 0 } else { n }
}

// Reads until the buffer is full or the input ends. Says how many bytes there were.
fn read_full<R: Read>(input: &mut R, buffer: &mut [u8]) -> io::Result<usize>
    ensures within { IfOk result (λ n. n ≤ length buffer.old) }
    ensures bytes { IfOk result (λ n. ReadsFront (R.remaining input.old) (R.remaining input.new) (λ _. length buffer.old) (take n buffer.new)) }
    ensures failed { OnErr result (LosesNone (R.remaining input.old) (R.remaining input.new) buffer.new) }
{
    let mut done = 0;
    while done < buffer.len() {
        let n = input.read(&mut buffer[done..])?;
        if n == 0 {
            break;
        }
        done += n;
    }
    Ok(done)
}

// Reads a policy: block 0, then the blocks that it promises. Says how many bytes there were.
fn read_policy<R: Read>(input: &mut R, policy: &mut [u8]) -> io::Result<usize>
    requires { length policy.old ≡ block_bytes * policy_blocks }
    ensures within { IfOk result (λ n. n ≤ block_bytes * policy_blocks) }
    ensures bytes { IfOk result (λ n. ReadsFront (R.remaining input.old) (R.remaining input.new) policy_size (take n policy.new)) }
    ensures failed { OnErr result (LosesNone (R.remaining input.old) (R.remaining input.new) policy.new) }
{
    let first = read_full(input, &mut policy[0..BLOCK_BYTES])?;
    if first < BLOCK_BYTES {
        return Ok(first);
    }
    let end = BLOCK_BYTES * promised(policy[TOTAL_AT], policy[TOTAL_AT + 1]);
    let rest = read_full(input, &mut policy[BLOCK_BYTES..end])?;
    Ok(BLOCK_BYTES + rest)
}

// Reads the number of blocks of the table: 0 where the input stops.
fn read_blocks<R: Read>(input: &mut R) -> io::Result<usize>
    ensures within { IfOk result (λ n. n ≤ table_blocks) }
    ensures bytes { IfOk result (ReadsBlocks (R.remaining input.old) (R.remaining input.new)) }
{
    let mut bytes = [0u8; 2];
    let got = read_full(input, &mut bytes)?;
    if got < 2 {
        return Ok(0);
    }
    Ok(lent(bytes[0], bytes[1]))
}

// A space and a number.
fn print_number<W: Write>(out: &mut W, n: u32) -> io::Result<()>
    ensures { OnOk result (Appends (W.contents out.old) (W.contents out.new) (number n)) }
{
    write!(out, " {n}")
}

// A line: the ordinal, then `grant` with its three numbers or `refuse` with its number and two places.
fn print_line<W: Write>(out: &mut W, ordinal: u64, answer: Result<Grant, Refusal>) -> io::Result<()>
    ensures { OnOk result (Appends (W.contents out.old) (W.contents out.new) (line ordinal (granted_of answer))) }
{
    write!(out, "{ordinal}")?;
    match answer {
        Ok(g) => {
            out.write_all(b" grant")?;
            print_number(out, g.recorded)?;
            print_number(out, g.removed)?;
            print_number(out, g.held)?;
        }
        Err(refusal) => {
            let r = SodReply::from(refusal);
            out.write_all(b" refuse")?;
            print_number(out, r.number)?;
            print_number(out, r.first)?;
            print_number(out, r.second)?;
        }
    }
    out.write_all(b"\n")
}

// Decides the requests one after another, to the end of the input. The ordinal bounds the run.
fn decide_all<R: Read, W: Write>(
    input: &mut R,
    out: &mut W,
    policy: &[u8],
    table: &mut [u8],
) -> io::Result<()>
    ensures lines { OnOk result (IfSome (R.remaining input.old) (λ xs. Appends (W.contents out.old) (W.contents out.new) (decided most_requests policy.now table.old 0 xs))) }
    ensures table { Decided policy.now table.old table.new }
{
    let mut ordinal = 0u64;
    while ordinal < 18446744073709551615 {
        let mut request = [0u8; REQUEST_BYTES];
        let got = read_full(input, &mut request)?;
        if got == 0 {
            return Ok(());
        }
        ordinal += 1;
        print_line(out, ordinal, decide(policy, table, &request[0..got]))?;
    }
    Ok(())
}

// The session of one policy and one table.
fn session<R: Read, W: Write>(
    input: &mut R,
    out: &mut W,
    policy: &[u8],
    table: &mut [u8],
) -> io::Result<()>
    ensures lines { OnOk result (IfSome (R.remaining input.old) (λ xs. Appends (W.contents out.old) (W.contents out.new) (session_text policy.now table.old xs))) }
    ensures table { Decided policy.now (make_table policy.now table.old).state table.new }
{
    match make_table(policy, table) {
        Ok(_) => decide_all(input, out, policy, table),
        Err(refusal) => print_line(out, 0, Err(refusal)),
    }
}

// The whole run.
pub fn trial<R: Read, W: Write>(input: &mut R, out: &mut W) -> io::Result<()>
    ensures { OnOk result (IfSome (R.remaining input.old) (λ xs. Appends (W.contents out.old) (W.contents out.new) (trial_text xs))) }
{
    let mut policy = [0u8; BLOCK_BYTES * POLICY_BLOCKS];
    let len = read_policy(input, &mut policy)?;
    let mut table = [0u8; BLOCK_BYTES * TABLE_BLOCKS];
    let size = BLOCK_BYTES * read_blocks(input)?;
    session(input, out, &policy[0..len], &mut table[0..size])
}
