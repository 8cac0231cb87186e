// The beginnings of the tags that say something.
ghost use Rattle.std.specs.Prelude.{◌≡◌, ◌≤◌, length};
ghost use Rattle.xml.specs.Tags.{squeezed};
ghost use Rattle.tags.specs.Cut.{span};
ghost use Rattle.tags.specs.Rows.{row_of};

use crate::cut::squeeze;

// The rows' beginnings, in the order in which `said` (tag.rt) takes them.
const ROWS: [&[u8]; 16] = [
    b"<MSoDPolicySet",
    b"</MSoDPolicySet",
    b"<MSoDPolicyBusinessContext=",
    b"</MSoDPolicy",
    b"<FirstStepoperation=",
    b"<FirstSteptargetURI=",
    b"<LastStepoperation=",
    b"<LastSteptargetURI=",
    b"<MMERForbiddenCardinality=",
    b"</MMER",
    b"<MMEPForbiddenCardinality=",
    b"</MMEP",
    b"<Roletype=",
    b"<Rolevalue=",
    b"<Operationvalue=",
    b"<Operationtarget=",
];

// As many bytes as the longest has, and one.
const WIDTH: usize = 28;

// The row whose beginning this is; as many as there are rows, if there is none.
fn row_of(head: &[u8]) -> usize
    ensures { result ≡ row_of head.now }
{
    ROWS.iter()
        .position(|row| head == *row)
        .unwrap_or(ROWS.len())
}

// The row whose beginning a piece of the text is.
pub fn row_at(text: &[u8], from: usize, to: usize) -> usize
    requires { (from ≤ to) × (to ≤ length text.now) }
    ensures { result ≡ row_of (squeezed (span text.now from to)) }
{
    let mut head = [0u8; WIDTH];
    let n = squeeze(text, from, to, &mut head);
    if WIDTH < n {
        return ROWS.len();
    }
    row_of(&head[..n])
}
