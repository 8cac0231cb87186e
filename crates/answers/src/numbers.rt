// An answer as C has it.
ghost use Rattle.std.specs.Prelude.{◌≡◌};
ghost use Rattle.format.specs.Answer.{refuse};
ghost use Rattle.format.specs.Code.{refusal_of, text_refusal_of};
ghost use Rattle.answers.specs.Code.{accepted_of, granted_of, converted_of};
ghost use Rattle.answers.specs.Numbers.{four, four_of, narrow, narrowed};

use format::answer::{Grant, Refusal, TextRefusal};

// An answer in four numbers: 0 and what acceptance or a grant returns, or a refusal's number and its two places.
#[repr(C)]
#[derive(Clone, Copy, Debug, PartialEq, Eq)]
pub struct SodReply {
    pub number: u32,
    pub first: u32,
    pub second: u32,
    pub third: u32,
}

// A refusal of a number, with its two places.
fn refused(number: u32, first: u32, second: u32) -> SodReply
    ensures { four_of result ≡ record { number = number; first = first; second = second; third = 0 } }
{
    SodReply {
        number,
        first,
        second,
        third: 0,
    }
}

// Acceptance with a number.
fn accepted(first: u32) -> SodReply
    ensures { four_of result ≡ record { number = 0; first = first; second = 0; third = 0 } }
{
    refused(0, first, 0)
}

impl From<Refusal> for SodReply {
    ghost from_gives = { λ r s. four_of s ≡ four (refuse (refusal_of r)) };

    fn from(refusal: Refusal) -> SodReply {
        match refusal {
            Refusal::PolicyLength => refused(1, 0, 0),
            Refusal::PolicyCheck(block) => refused(2, block, 0),
            Refusal::PolicyHeader(block) => refused(3, block, 0),
            Refusal::RuleBytes(block) => refused(4, block, 0),
            Refusal::Exclusion(block, exclusion) => refused(5, block, exclusion),
            Refusal::Entry(block, entry) => refused(6, block, entry),
            Refusal::TableLength => refused(11, 0, 0),
            Refusal::TableCheck(block) => refused(12, block, 0),
            Refusal::TableHeader(block) => refused(13, block, 0),
            Refusal::Stamp(block) => refused(14, block, 0),
            Refusal::Record(block, record) => refused(15, block, record),
            Refusal::Length => refused(21, 0, 0),
            Refusal::Field => refused(22, 0, 0),
            Refusal::NotPermitted => refused(31, 0, 0),
            Refusal::Roles(rule, exclusion) => refused(32, rule, exclusion),
            Refusal::Privileges(rule, exclusion) => refused(33, rule, exclusion),
            Refusal::Full => refused(34, 0, 0),
        }
    }
}

impl From<Result<u32, Refusal>> for SodReply {
    ghost from_gives = { λ a s. four_of s ≡ four (accepted_of a) };

    fn from(answer: Result<u32, Refusal>) -> SodReply {
        match answer {
            Ok(n) => accepted(n),
            Err(refusal) => SodReply::from(refusal),
        }
    }
}

impl From<Result<Grant, Refusal>> for SodReply {
    ghost from_gives = { λ a s. four_of s ≡ four (granted_of a) };

    fn from(answer: Result<Grant, Refusal>) -> SodReply {
        match answer {
            Ok(grant) => SodReply {
                number: 0,
                first: grant.recorded,
                second: grant.removed,
                third: grant.held,
            },
            Err(refusal) => SodReply::from(refusal),
        }
    }
}

// A length, or a byte of a text: the highest number where C's 32 bits are too few.
fn in_32_bits(n: usize) -> u32
    ensures { result ≡ narrow n }
{
    u32::try_from(n).unwrap_or(u32::MAX)
}

impl From<TextRefusal> for SodReply {
    ghost from_gives = { λ r s. four_of s ≡ narrowed (four (refuse (text_refusal_of r))) };

    fn from(refusal: TextRefusal) -> SodReply {
        match refusal {
            TextRefusal::Policy(refusal) => SodReply::from(refusal),
            TextRefusal::Misfit(at) => refused(41, in_32_bits(at), 0),
            TextRefusal::NotListed => refused(42, 0, 0),
            TextRefusal::NotWithin => refused(43, 0, 0),
        }
    }
}

impl From<Result<usize, TextRefusal>> for SodReply {
    ghost from_gives = { λ a s. four_of s ≡ narrowed (four (converted_of a)) };

    fn from(answer: Result<usize, TextRefusal>) -> SodReply {
        match answer {
            Ok(n) => accepted(in_32_bits(n)),
            Err(refusal) => SodReply::from(refusal),
        }
    }
}
