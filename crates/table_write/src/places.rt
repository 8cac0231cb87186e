// Records put at their places. A place that has the record already is left alone, so that its block need not be written.
ghost use Rattle.std.specs.Prelude.{◌≡◌, not, ◌||◌, ◌++◌, ℕ, ◌+◌, ◌*◌, ◌≤◌, ◌<◌, eqb, length, take};
ghost use Rattle.words.specs.Lists.{same_list};
ghost use Rattle.words.specs.Bytes.{part, bytes4};
ghost use Rattle.format.specs.Layout.{record_bytes, request_bytes, table_blocks, capacity};
ghost use Rattle.format.specs.Records.{record_start, record_from, record_here};
ghost use Rattle.format.specs.Altered.{same_record};
ghost use Rattle.fields.specs.Code.{HasRoom, has_block};
ghost use Rattle.table_write.specs.Writing.{over, count_in, Noted};

use fields::blocks::BlockSet;
use fields::field::{put_u32, u32_at};
use fields::layout::{MARKS_AT, REQUEST_BYTES, REQUEST_WORDS};
use fields::request;
use fields::sets::RuleSet;
use fields::tables::{Blocks, record_start};

// ---- bytes

// Copies n words of another slice. Not by the library: its copy of a block calls `memcpy`, or `memmove` where the compiler cannot tell that the two places
// lie apart, and the archive for C needs neither.
pub fn copy_words(s: &mut [u8], at: usize, from: &[u8], n: usize)
    requires { (at + 4 * n ≤ length s.old) × (4 * n ≤ length from.now) }
    ensures { s.new ≡ over s.old at (4 * n) (take (4 * n) from.now) }
{
    for i in 0..n {
        put_u32(s, at + 4 * i, u32_at(from, 4 * i));
    }
}

// Copies n words to a byte that is not behind their own: a word is read before it is written over. With the request copied out as an array, and put from
// there, last steps that move records took 1.11 to 1.16 of the time.
fn move_words(s: &mut [u8], from: usize, to: usize, n: usize)
    requires { (to ≤ from) × (from + 4 * n ≤ length s.old) }
    ensures { s.new ≡ over s.old to (4 * n) (part s.old from (4 * n)) }
{
    for i in 0..n {
        let word = u32_at(s, from + 4 * i);
        put_u32(s, to + 4 * i, word);
    }
}

// The n words at a byte of one slice are those at a byte of another. No early exit: the compiler compares many bytes at once.
fn same_words(s: &[u8], at: usize, other: &[u8], from: usize, n: usize) -> bool
    requires { (at + 4 * n ≤ length s.now) × (from + 4 * n ≤ length other.now) }
    ensures { result ≡ same_list (part s.now at (4 * n)) (part other.now from (4 * n)) }
{
    let mut same = true;
    for i in 0..n {
        same = same & (u32_at(s, at + 4 * i) == u32_at(other, from + 4 * i));
    }
    same
}

// ---- a record at a byte

// Puts a record, a request and its marks, at a byte.
fn put_record(table: &mut [u8], at: usize, request: &[u8; REQUEST_BYTES], marks: RuleSet)
    requires { at + record_bytes ≤ length table.old }
    ensures { table.new ≡ over table.old at record_bytes (request.now ++ bytes4 marks.0) }
{
    table[at..at + REQUEST_BYTES].copy_from_slice(request);
    put_u32(table, at + MARKS_AT, marks.0);
}

// Puts the record that begins at one byte at another that is not behind it, with these marks.
fn move_record(table: &mut [u8], from: usize, to: usize, marks: RuleSet)
    requires { (to ≤ from) × (from + record_bytes ≤ length table.old) }
    ensures { table.new ≡ over table.old to record_bytes (part table.old from request_bytes ++ bytes4 marks.0) }
{
    move_words(table, from, to, REQUEST_WORDS);
    put_u32(table, to + MARKS_AT, marks.0);
}

// The record at a byte is the request that begins at a byte of a slice, with these marks. Where no record is there are no marks, so marks come first.
fn stands(table: &[u8], to: usize, request: &[u8], from: usize, marks: RuleSet) -> bool
    requires { (to + record_bytes ≤ length table.now) × (from + request_bytes ≤ length request.now) }
    ensures { result ≡ same_record (record_from table.now to) (record { request = part request.entry.now from request_bytes; marks = marks.0 }) }
{
    if request::marks(table, to).0 != marks.0 {
        return false;
    }
    same_words(table, to, request, from, REQUEST_WORDS)
}

// ---- a record at its place

// Puts other marks on record i. Its block is added to a set if they are others. It does what `place` does at a record's own place, but reads and writes 4
// bytes of its 32.
pub fn remark(table: &mut [u8], i: usize, marks: RuleSet, changed: BlockSet) -> BlockSet
    requires { HasRoom table.old (i + 1) }
    ensures { (table.new ≡ over table.old (record_start i) record_bytes ((record_here table.old i).request ++ bytes4 marks.0)) × (Noted table.old i (record { request = (record_here table.old i).request; marks = marks.0 }) changed result) }
{
    let at = record_start(i);
    if request::marks(table, at).0 == marks.0 {
        return changed;
    }
    put_u32(table, at + MARKS_AT, marks.0);
    changed.with(i / Blocks::RECORDS)
}

// Puts record i, with these marks, at a place before it. Its block is added to a set if another record stood there: where it is in the set already,
// there is nothing to compare.
pub fn place(table: &mut [u8], i: usize, j: usize, marks: RuleSet, changed: BlockSet) -> BlockSet
    requires { (j ≤ i) × (HasRoom table.old (i + 1)) }
    ensures { (table.new ≡ over table.old (record_start j) record_bytes ((record_here table.old i).request ++ bytes4 marks.0)) × (Noted table.old j (record { request = (record_here table.old i).request; marks = marks.0 }) changed result) }
{
    let from = record_start(i);
    let to = record_start(j);
    if changed.has(j / Blocks::RECORDS) {
        move_record(table, from, to, marks);
        return changed;
    }
    if stands(table, to, table, from, marks) {
        return changed;
    }
    move_record(table, from, to, marks);
    changed.with(j / Blocks::RECORDS)
}

// The same with a request that stands elsewhere.
pub fn place_request(
    table: &mut [u8],
    j: usize,
    q: &[u8; REQUEST_BYTES],
    marks: RuleSet,
    changed: BlockSet,
) -> BlockSet
    requires { HasRoom table.old (j + 1) }
    ensures { (table.new ≡ over table.old (record_start j) record_bytes (q.now ++ bytes4 marks.0)) × (Noted table.old j (record { request = q.now; marks = marks.0 }) changed result) }
{
    let to = record_start(j);
    if stands(table, to, q, 0, marks) {
        return changed;
    }
    put_record(table, to, q, marks);
    changed.with(j / Blocks::RECORDS)
}

// ---- more records, or fewer

// With the blocks that have more records when there are `more` and not `fewer`.
fn with_grown(changed: BlockSet, fewer: usize, more: usize) -> BlockSet
    requires { (fewer < more) × (more ≤ capacity table_blocks) }
    ensures { (k : ℕ) → has_block result k ≡ (not (eqb (count_in fewer k) (count_in more k)) || has_block changed k) }
{
    let end = more.div_ceil(Blocks::RECORDS);
    changed.with_range(fewer / Blocks::RECORDS, end)
}

// With the blocks that have another number of records afterwards than before.
pub fn with_resized(changed: BlockSet, before: usize, after: usize) -> BlockSet
    requires { (before ≤ capacity table_blocks) × (after ≤ capacity table_blocks) }
    ensures { (k : ℕ) → has_block result k ≡ (not (eqb (count_in before k) (count_in after k)) || has_block changed k) }
{
    if before < after {
        return with_grown(changed, before, after);
    }
    if after < before {
        return with_grown(changed, after, before);
    }
    changed
}
