// What checks and calls answer.
ghost use Rattle.std.specs.Prelude.{◌≡◌};
ghost use Rattle.format.specs.declared.answer.TextRefusal.TheVariants.{Policy};

// What refuses an image, a context or a request: each case has its number in document 01, and `refusal_of` (specs/Code.antt) gives that and the two places. A
// block is told from 0, an exclusion, an entry, a record and a rule from 1.
#[derive(Clone, Copy, Debug, PartialEq, Eq)]
pub enum Refusal {
    // 1: the length of a policy.
    PolicyLength,
    // 2: the check of a block.
    PolicyCheck(u32),
    // 3: its kind, number or total, a rule behind a permission block, or one rule too many.
    PolicyHeader(u32),
    // 4: a rule block's other bytes.
    RuleBytes(u32),
    // 5: an exclusion of a rule block.
    Exclusion(u32, u32),
    // 6: an entry of a permission block, or 0 for its other bytes.
    Entry(u32, u32),
    // 11: the length of a table.
    TableLength,
    // 12: the check of a block.
    TableCheck(u32),
    // 13: its kind, number, total or count, a gap, or spare bytes.
    TableHeader(u32),
    // 14: its stamp.
    Stamp(u32),
    // 15: a record of it.
    Record(u32, u32),
    // 21: the length of a request, or of a context that is handed over by itself.
    Length,
    // 22: a field of one.
    Field,
    // 31: the policy permits no active role what is asked.
    NotPermitted,
    // 32: an exclusion of roles, by its rule.
    Roles(u32, u32),
    // 33: an exclusion of privileges, by its rule.
    Privileges(u32, u32),
    // 34: the table has no room.
    Full,
}

// What refuses a text or a list of names, or the image beside them.
#[derive(Clone, Copy, Debug, PartialEq, Eq)]
pub enum TextRefusal {
    // An image that is no policy.
    Policy(Refusal),
    // 41: the first byte that no text of the form has.
    Misfit(usize),
    // 42: a bad list of names, or a name or number that it does not have.
    NotListed,
    // 43: what breaks a limit.
    NotWithin,
}

impl From<Refusal> for TextRefusal {
    ghost from_gives = { λ r t. t ≡ Policy r };

    fn from(refusal: Refusal) -> TextRefusal {
        TextRefusal::Policy(refusal)
    }
}

// A grant: 1 if the request was recorded, else 0; the records that it removed; the records that the table holds now.
#[derive(Clone, Copy, Debug, PartialEq, Eq)]
pub struct Grant {
    pub recorded: u32,
    pub removed: u32,
    pub held: u32,
}
