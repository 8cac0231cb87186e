// The words that the reader knows, and how far a text has one.
ghost use Rattle.std.specs.Prelude.{◌≡◌, ◌≤◌, ◌<◌, ◌&&◌, eqb, ltb, length, drop, get_or};
ghost use Rattle.forms.specs.Run.{common};
ghost use Rattle.reader.specs.Words.{word_count, word};

// How tags begin, the signs, the names of attributes.
static WORDS: [&[u8]; 24] = [
    b"<MSoDPolicySet",
    b"</MSoDPolicySet",
    b"<MSoDPolicy",
    b"</MSoDPolicy",
    b"<FirstStep",
    b"<LastStep",
    b"<MMER",
    b"</MMER",
    b"<MMEP",
    b"</MMEP",
    b"<Role",
    b"<Operation",
    b">",
    b"/>",
    b"=",
    b"\"",
    b",",
    b"operation",
    b"targetURI",
    b"ForbiddenCardinality",
    b"BusinessContext",
    b"type",
    b"value",
    b"target",
];

// The places of signs and attributes among them. They are numbers and no enum, as the first twelve are the numbers of the tags (table.rt).
pub const GREATER: usize = 12;

pub const SLASH_GREATER: usize = 13;

pub const EQUALS: usize = 14;

pub const QUOTE: usize = 15;

pub const COMMA: usize = 16;

pub const OPERATION: usize = 17;

pub const TARGET_URI: usize = 18;

pub const FORBIDDEN_CARDINALITY: usize = 19;

pub const BUSINESS_CONTEXT: usize = 20;

pub const TYPE: usize = 21;

pub const VALUE: usize = 22;

pub const TARGET: usize = 23;

pub fn word(w: usize) -> &'static [u8]
    requires { w < word_count }
    ensures { result.now ≡ word w }
{
    WORDS[w]
}

// How many bytes of the text from at on are the word's.
pub fn matched(w: usize, text: &[u8], at: usize) -> usize
    requires { (w < word_count) × (at ≤ length text.now) }
    ensures { result ≡ common (word w) (drop at text.now) }
{
    text[at..]
        .iter()
        .zip(word(w))
        .take_while(|(b, c)| b == c)
        .count()
}

// The byte at a place is the word's first.
pub fn starts(w: usize, text: &[u8], at: usize) -> bool
    requires { w < word_count }
    ensures { result ≡ ltb at (length text.now) && eqb (get_or text.now at 0) (get_or (word w) 0 0) }
{
    at < text.len() && text[at] == word(w)[0]
}
