// The numbers of names that stand in a text, each looked up among its own kind.
ghost use Rattle.std.specs.Prelude.{◌≡◌, IfOk};
ghost use Rattle.format.specs.Code.{text_fault_of};
ghost use Rattle.fields.specs.Code.{privilege_of as privilege_here};
ghost use Rattle.xml.specs.Names.{role_names, number_of};
ghost use Rattle.xml.specs.Read.{listed, or_zero, privilege_fault, privilege_of};
ghost use Rattle.tags.specs.Code.{value_at, InText};
ghost use Rattle.names.specs.Code.{name_code};

use crate::source::Source;
use fields::number::{Operation, Role, Target};
use fields::privilege::Privilege;
use format::answer::TextRefusal;
use names::kind::NameKind;
use names::layout::MOST_NAME_BYTES;
use tags::cut::squeeze;
use tags::span::Span;

impl Source<'_> {
    // The number of a name of a kind, white space left out. What has more bytes than a name may have is not listed.
    pub fn number_in(&self, kind: NameKind, s: Span) -> Result<u16, TextRefusal>
        requires { InText self.now.text.now s }
        ensures fault { text_fault_of result ≡ listed (number_of self.now.names.list.now (name_code kind) (value_at self.now.text.now s)) }
        ensures number { IfOk result (λ n. n ≡ or_zero (number_of self.now.names.list.now (name_code kind) (value_at self.now.text.now s))) }
    {
        let mut name = [0u8; MOST_NAME_BYTES];
        let n = squeeze(self.text, s.from, s.to, &mut name);
        if MOST_NAME_BYTES < n {
            return Err(TextRefusal::NotListed);
        }
        self.names
            .number_of(kind.code(), &name, 0, n)
            .ok_or(TextRefusal::NotListed)
    }

    // The number of a role's name.
    pub fn role_in(&self, s: Span) -> Result<Role, TextRefusal>
        requires { InText self.now.text.now s }
        ensures fault { text_fault_of result ≡ listed (number_of self.now.names.list.now role_names (value_at self.now.text.now s)) }
        ensures number { IfOk result (λ role. role.0 ≡ or_zero (number_of self.now.names.list.now role_names (value_at self.now.text.now s))) }
    {
        Ok(Role(u32::from(self.number_in(NameKind::Role, s)?)))
    }

    // Those of an operation's and of a target's.
    pub fn privilege_in(&self, operation: Span, target: Span) -> Result<Privilege, TextRefusal>
        requires { InText self.now.text.now operation × InText self.now.text.now target }
        ensures fault { text_fault_of result ≡ privilege_fault self.now.names.list.now (value_at self.now.text.now operation) (value_at self.now.text.now target) }
        ensures privilege { IfOk result (λ p. privilege_here p ≡ privilege_of self.now.names.list.now (value_at self.now.text.now operation) (value_at self.now.text.now target)) }
    {
        Ok(Privilege {
            operation: Operation(self.number_in(NameKind::Operation, operation)?),
            target: Target(self.number_in(NameKind::Target, target)?),
        })
    }
}
