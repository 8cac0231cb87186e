// What a tag says, its values by where they stand in the text.
ghost use Rattle.std.specs.Prelude.{◌≡◌, List, ℕ, ◌≤◌, length};
ghost use Rattle.xml.specs.Tags.{squeezed, parted, tag_of};
ghost use Rattle.tags.specs.Cut.{span};
ghost use Rattle.tags.specs.Rows.{said_by};
ghost use Rattle.tags.specs.Code.{value_at, InText, tag_at, TagIn};

use crate::cut::{QUOTE, next, until};
use crate::rows::row_at;
use crate::span::Span;
use fields::kind::ExclusionKind;

// What a privilege is there: a rule's first step, its last step, or a member of an exclusion.
#[derive(Clone, Copy, Debug, PartialEq, Eq)]
pub enum Place {
    First,
    Last,
    Member,
}

// What a tag says.
#[derive(Clone, Copy, Debug, PartialEq, Eq)]
pub enum Tag {
    StartSet,
    EndSet,
    StartRule(Span),
    EndRule,
    StartExclusion(ExclusionKind, Span),
    EndExclusion,
    Role(Span),
    Privilege(Place, Span, Span),
    Other,
}

// What a tag of a row says with its two values.
fn said(row: usize, one: Span, two: Span) -> Tag
    ensures { ((t : List ℕ) → tag_at t result ≡ said_by row (value_at t one) (value_at t two))
        × ((t : List ℕ) → InText t one → InText t two → TagIn t result) }
{
    match row {
        0 => Tag::StartSet,
        1 => Tag::EndSet,
        2 => Tag::StartRule(one),
        3 => Tag::EndRule,
        4 => Tag::Privilege(Place::First, one, two),
        5 => Tag::Privilege(Place::First, two, one),
        6 => Tag::Privilege(Place::Last, one, two),
        7 => Tag::Privilege(Place::Last, two, one),
        8 => Tag::StartExclusion(ExclusionKind::Roles, one),
        9 => Tag::EndExclusion,
        10 => Tag::StartExclusion(ExclusionKind::Privileges, one),
        11 => Tag::EndExclusion,
        12 => Tag::Role(two),
        13 => Tag::Role(one),
        14 => Tag::Privilege(Place::Member, one, two),
        15 => Tag::Privilege(Place::Member, two, one),
        _ => Tag::Other,
    }
}

// What the tag says that ends behind a part of the text.
pub fn tag_of(text: &[u8], from: usize, to: usize) -> Tag
    requires { (from ≤ to) × (to ≤ length text.now) }
    ensures { (tag_at text.now result ≡ tag_of (parted 34 (squeezed (span text.now from to)))) × TagIn text.now result }
{
    let quote = until(text, from, to, QUOTE);
    let one = next(text, quote, to, QUOTE);
    let between = next(text, one.to, to, QUOTE);
    let two = next(text, between.to, to, QUOTE);
    said(row_at(text, from, quote), one, two)
}
