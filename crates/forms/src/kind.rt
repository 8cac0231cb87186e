// Kinds of bytes that stand in a row of any length.
ghost use Rattle.std.specs.Prelude.{◌≡◌, eqb};
ghost use Rattle.words.specs.Lists.{any_of};
ghost use Rattle.forms.specs.Form.{ascii, is_of};
ghost use Rattle.forms.specs.Code.{kind_of};

#[derive(Clone, Copy)]
pub enum ByteKind {
    Space,
    Digit,
    Name,
}

pub fn is_of(kind: ByteKind, b: u8) -> bool
    ensures { result ≡ is_of (kind_of kind) b }
{
    match kind {
        ByteKind::Space => (b == 32) | (b == 9) | (b == 13) | (b == 10),
        ByteKind::Digit => (48 <= b) & (b <= 57),
        ByteKind::Name => (33 <= b) & (b <= 126) & !left_out(b),
    }
}

// The bytes `"` `&` `<` `>` `=` `,` `*` `!`.
fn left_out(b: u8) -> bool
    ensures { result ≡ any_of (eqb b) (ascii "\"&<>=,*!") }
{
    (b == 34)
        | ((b == 38)
            | ((b == 60) | ((b == 62) | ((b == 61) | ((b == 44) | ((b == 42) | (b == 33)))))))
}
