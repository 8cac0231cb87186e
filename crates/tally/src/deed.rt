// What a tally takes in of a request.
ghost use Rattle.std.specs.Prelude.{◌≡◌, ◌+◌, ◌≤◌, length};
ghost use Rattle.words.specs.Bytes.{part};
ghost use Rattle.format.specs.Layout.{request_bytes};
ghost use Rattle.tally.specs.Code.{deed_of};

use fields::privilege::Packed;
use fields::request;
use fields::sets::Roles;

// The active roles of a request, and what it does.
#[derive(Clone, Copy, Debug, PartialEq, Eq)]
pub struct Deed {
    pub roles: Roles,
    pub privilege: Packed,
}

impl Deed {
    // The place of a deed that is not put down yet.
    pub const NONE: Deed = Deed {
        roles: Roles(0),
        privilege: Packed(0),
    };

    // That of the request at a byte.
    pub fn read(s: &[u8], at: usize) -> Self
        requires { at + request_bytes ≤ length s.now }
        ensures { result ≡ deed_of (part s.now at request_bytes) }
    {
        Deed {
            roles: request::roles(s, at),
            privilege: request::privilege(s, at).packed(),
        }
    }
}
