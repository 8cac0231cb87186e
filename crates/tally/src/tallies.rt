// "The tally of an exclusion takes in the records one by one."
ghost use Rattle.std.specs.Prelude.{◌≡◌, true, List, [], ◌∷◌, ◌++◌, map, ℕ, ◌≤◌, ◌<◌, length, get_or};
ghost use Rattle.format.specs.Layout.{most_exclusions, table_blocks, capacity};
ghost use Rattle.format.specs.Request.{Request, operation};
ghost use Rattle.format.specs.Rule.{Exclusion, exclusion_at, good_exclusion};
ghost use Rattle.judge.specs.Tally.{reached as reached_of};
ghost use Rattle.tally.specs.Code.{TallyOf, deed_of};

use crate::counting::{Counted, count_privileges, count_roles};
use crate::deed::Deed;
use fields::layout::{
    BLOCK_BYTES, EXCLUSION_BYTES, EXCLUSION_KIND_AT, EXCLUSION_M_AT, EXCLUSION_N_AT, MEMBER_BYTES,
    MEMBERS_AT, MOST_MEMBERS, OF_ROLES, REQUEST_BYTES,
};
use fields::privilege::Privilege;
use fields::sets::Roles;

// What an exclusion counts of the requests taken in: for one of roles all the roles that were active, for one of privileges how often
// each of its eight members was done. Members past its number are there too, and are not looked at.
#[derive(Clone, Copy, Debug, PartialEq, Eq)]
pub struct Tally {
    pub kind: u8,
    pub roles: Roles,
    pub members: [Counted; MOST_MEMBERS],
}

impl Tally {
    // The tally of exclusion e of a rule's block, with nothing taken in.
    pub fn of(b: &[u8; BLOCK_BYTES], e: usize) -> Self
        requires { e < most_exclusions }
        ensures { TallyOf (exclusion_at b.now e) [] result }
    {
        let mut members = [Counted::NONE; MOST_MEMBERS];
        // By index: the byte at which a member stands follows from it.
        for k in 0..MOST_MEMBERS {
            let at = MEMBERS_AT + EXCLUSION_BYTES * e + MEMBER_BYTES * k;
            members[k] = Counted {
                privilege: Privilege::read(b, at).packed(),
                times: 0,
            };
        }
        Tally {
            kind: b[EXCLUSION_KIND_AT + EXCLUSION_BYTES * e],
            roles: Roles(0),
            members,
        }
    }

    // Takes in a record, or the request that asks. The eight members are compared at once: the loop has no exit. An operation has two
    // bytes: else two privileges could make one number.
    pub fn add(mut self, deed: Deed) -> Self
        ensures { (x : Exclusion) (qs : List Request) (q : Request) → TallyOf x qs self → length qs < 65536 → deed ≡ deed_of q → operation q < 65536 → TallyOf x (qs ++ (q ∷ [])) result }
    {
        if self.kind == OF_ROLES {
            self.roles = self.roles.or(deed.roles);
            return self;
        }
        for member in &mut self.members {
            *member = member.after(deed.privilege);
        }
        self
    }

    // "At m or more". The kind is read off the block: that the members of kind 1 are roles from 1 to 32 is known of the block, and not of
    // any tally. The members are copied before they are walked, so that the tally itself can stay in registers.
    pub fn reached(self, b: &[u8; BLOCK_BYTES], e: usize) -> bool
        requires { (e < most_exclusions) × (good_exclusion (exclusion_at b.now e) ≡ true) }
        ensures { (qs : List Request) → TallyOf (exclusion_at b.now e) qs self → length qs < 65537 → result ≡ reached_of (exclusion_at b.now e) qs }
    {
        let n = usize::from(b[EXCLUSION_N_AT + EXCLUSION_BYTES * e]);
        let m = u32::from(b[EXCLUSION_M_AT + EXCLUSION_BYTES * e]);
        if b[EXCLUSION_KIND_AT + EXCLUSION_BYTES * e] == OF_ROLES {
            return m <= count_roles(b, e, n, self.roles);
        }
        let members = self.members;
        m <= count_privileges(&members[..n])
    }
}

// The request would bring its user to m of exclusion e: the tally takes in the past of the rule one by one, and the request last.
pub fn reaches(b: &[u8; BLOCK_BYTES], e: usize, past: &[Deed], q: &[u8; REQUEST_BYTES]) -> bool
    requires e_bound { (e < most_exclusions) × (good_exclusion (exclusion_at b.now e) ≡ true) }
    requires past_len { length past.now ≤ capacity table_blocks }
    ensures { (qs : List Request) → past.now ≡ map deed_of qs → ((j : ℕ) → j < length qs → operation (get_or qs j []) < 65536) → result ≡ reached_of (exclusion_at b.now e) (qs ++ (q.now ∷ [])) }
{
    let mut tally = Tally::of(b, e);
    for deed in past {
        tally = tally.add(*deed);
    }
    tally.add(Deed::read(q, 0)).reached(b, e)
}
