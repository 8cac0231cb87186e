// "Which element may stand inside which is fixed by a constant table".
ghost use Rattle.std.specs.Prelude.{◌≡◌, ◌<◌};
ghost use Rattle.reader.specs.Table.{states, elements, next};

pub const ELEMENTS: usize = 12;

// The state behind the set, in which no tag may stand.
pub const BEHIND: usize = 7;

// The next state where a tag may not stand: a number and no Option, as the table of specs/ has it.
pub const NONE: usize = 8;

// The next states, as digits.
// A row for each state: before the set, in it, in a rule, behind its first step, among its exclusions, in an MMER, in an MMEP, behind the set.
// A column for each tag: the set and its end, a rule and its end, first step, last step, MMER and its end, MMEP and its end, role, operation.
const NEXT: [u8; 96] = *b"188888888888\
      872888888888\
      888134586888\
      888184586888\
      888188586888\
      888888848858\
      888888888486\
      888888888888";

pub fn next_state(s: usize, c: usize) -> usize
    requires { (s < states) × (c < elements) }
    ensures { result ≡ next s c }
{
    let digit = NEXT[ELEMENTS * s + c];
    usize::from(digit - b'0')
}
