// What is left of a table's records, in one pass: some go, some lose marks, and "the rest keep their order". What a record becomes is compared with what
// stood at its place before anything there is overwritten.
ghost use Rattle.std.specs.Prelude.{◌≡◌, List, ℕ, ◌+◌, ◌≤◌, length};
ghost use Rattle.format.specs.Layout.{record_bytes};
ghost use Rattle.format.specs.Table.{Record};
ghost use Rattle.format.specs.Records.{record_from, records_here};
ghost use Rattle.fields.specs.Code.{HasRoom};
ghost use Rattle.table_write.specs.Writing.{Placed};
ghost use Rattle.clearing.specs.Cleared.{left_of, Ready};
ghost use Rattle.clearing.specs.Settling.{Settling, StayIn, LeftIs};

use crate::ending::{Ending, block_end, cleared_marks};
use fields::blocks::BlockSet;
use fields::layout::REQUEST_BYTES;
use fields::request;
use fields::sets::RuleSet;
use fields::tables::{Blocks, record_start};
use table_write::places::{place, remark};

// What becomes of the records of a table, of each by itself.
pub trait Fate {
    // What is left of a list of them.
    ghost left: { Self → List Record → List Record };

    // The marks that the record at a byte keeps, or none if it goes.
    fn marks_left(&self, table: &[u8], at: usize) -> Option<RuleSet>
        requires { at + record_bytes ≤ length table.now }
        ensures { LeftIs (left self.now) (record_from table.now at) result };
}

// How many records are held, and the blocks in which another record stands than before.
#[derive(Clone, Copy)]
pub struct Settled {
    pub held: usize,
    pub changed: BlockSet,
}

// Record i with what is left of its marks: it goes, or it is put behind those before it that have stayed.
fn settle_record<F: Fate>(fate: &F, table: &mut [u8], i: usize, left: Settled) -> Settled
    requires { (left.held ≤ i) × (HasRoom table.old (i + 1)) }
    ensures { ((s : List ℕ) → Settling (F.left fate.now) s i table.old left.held left.changed → Settling (F.left fate.now) s (i + 1) table.new result.held result.changed) × (result.held ≤ i + 1) }
{
    let held = left.held;
    let changed = left.changed;
    let Some(marks) = fate.marks_left(table, record_start(i)) else {
        return left;
    };
    let next = held + 1;
    if held == i {
        return Settled {
            held: next,
            changed: remark(table, i, marks, changed),
        };
    }
    Settled {
        held: next,
        changed: place(table, i, held, marks, changed),
    }
}

// The records from one place up to another, one after the other.
pub fn settle_records<F: Fate>(
    fate: &F,
    table: &mut [u8],
    from: usize,
    to: usize,
    left: Settled,
) -> Settled
    requires { (left.held ≤ from) × (from ≤ to) × (HasRoom table.old to) }
    ensures { ((s : List ℕ) → Settling (F.left fate.now) s from table.old left.held left.changed → Settling (F.left fate.now) s to table.new result.held result.changed) × (result.held ≤ to) }
{
    let mut settled = left;
    for i in from..to {
        settled = settle_record(fate, table, i, settled);
    }
    settled
}

// Records that stay as they are, from one place up to another: they are put behind those before them that have stayed, if one has gone.
pub fn pass_records(table: &mut [u8], from: usize, to: usize, left: Settled) -> Settled
    requires { (left.held ≤ from) × (from ≤ to) × (HasRoom table.old to) }
    ensures { ((rest : List Record → List Record) (s : List ℕ) → StayIn rest s from to → Settling rest s from table.old left.held left.changed → Settling rest s to table.new result.held result.changed) × (result.held ≤ to) }
{
    let mut held = left.held;
    let mut changed = left.changed;
    if held == from {
        return Settled { held: to, changed };
    }
    for i in from..to {
        let marks = request::marks(table, record_start(i));
        changed = place(table, i, held, marks, changed);
        held += 1;
    }
    Settled { held, changed }
}

// At a grant a record loses the marks of the rules that end in its run place, and goes with the last.
#[derive(Clone, Copy)]
struct Clearing<'a> {
    ending: Ending,
    q: &'a [u8; REQUEST_BYTES],
}

impl Fate for Clearing<'_> {
    ghost left = { λ c. left_of c.ending c.q.now };

    fn marks_left(&self, table: &[u8], at: usize) -> Option<RuleSet> {
        let q = self.q;
        let marks = cleared_marks(self.ending, q, table, at);
        if marks.is_empty() { None } else { Some(marks) }
    }
}

// Clears the marks of the rules that end, and moves the records that keep a mark to the front. Marks are looked at only in blocks where a record may lose
// one.
pub fn settle(ending: Ending, q: &[u8; REQUEST_BYTES], table: &mut [u8], n: usize) -> Settled
    requires { Ready ending q.now table.old n }
    ensures { (records_here table.new result.held ≡ left_of ending q.now (records_here table.old n)) × (Placed table.old table.new result.held result.changed) }
{
    let none = BlockSet::none();
    if ending.rules.is_empty() {
        return Settled {
            held: n,
            changed: none,
        };
    }
    let clearing = Clearing { ending, q };
    let mut settled = Settled {
        held: 0,
        changed: none,
    };
    for k in 0..n.div_ceil(Blocks::RECORDS) {
        let from = Blocks::RECORDS * k;
        let to = block_end(from, n);
        if ending.near.has(k) {
            settled = settle_records(&clearing, table, from, to, settled);
        } else {
            settled = pass_records(table, from, to, settled);
        }
    }
    settled
}
