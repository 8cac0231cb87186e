// The policy image: its blocks in turn, and the number of its rules.
ghost use Rattle.std.specs.Prelude.{◌≡◌, ◌<◌, IfOk};
ghost use Rattle.format.specs.Block.{block as block_of, blocks};
ghost use Rattle.format.specs.Policy.{policy_fault, rule_count, stamp as stamp_in};
ghost use Rattle.sums.specs.Code.{sums_of};
ghost use Rattle.format.specs.Code.{fault_of};
ghost use Rattle.std.proofs.Math.Option.{none};
ghost use Rattle.policy_check.specs.Parts.{good_header, block_fault, blocks_fault};

use crate::block::good_check;
use crate::permission::permission_fault;
use crate::rule::rule_fault;
use crate::stamp::stamp_of;
use fields::field::{u16_at, u32_at};
use fields::layout::{
    BLOCK_BYTES, KIND_AT, MOST_RULES, NUMBER_AT, PERMISSION_KIND, POLICY_BLOCKS, RULE_KIND,
    TOTAL_AT,
};
use fields::tables::{block, good_length};
use format::answer::Refusal;
use sums::sum::Sum;

// The header of block k of `total`, where `seen` says that a permission block came before it.
fn good_header(b: &[u8; BLOCK_BYTES], k: u32, total: u32, seen: bool) -> bool
    ensures { result ≡ good_header k total seen b.now }
{
    let kind = u32_at(b, KIND_AT);
    (u16_at(b, NUMBER_AT) == k)
        & (u16_at(b, TOTAL_AT) == total)
        & ((kind == PERMISSION_KIND) | ((kind == RULE_KIND) & (k < MOST_RULES) & !seen))
}

// The fault of block k of `total`, numbers upwards.
fn block_fault(b: &[u8; BLOCK_BYTES], k: u32, total: u32, seen: bool) -> Result<(), Refusal>
    ensures { fault_of result ≡ block_fault k total seen b.now }
{
    if !good_check(b) {
        return Err(Refusal::PolicyCheck(k));
    }
    if !good_header(b, k, total, seen) {
        return Err(Refusal::PolicyHeader(k));
    }
    if u32_at(b, KIND_AT) == RULE_KIND {
        rule_fault(b, k)
    } else {
        permission_fault(b, k)
    }
}

// The first fault of the blocks in turn.
fn blocks_fault(s: &[u8]) -> Result<(), Refusal>
    requires { blocks s.now < 4294967296 }
    ensures { fault_of result ≡ blocks_fault s.now }
{
    let total = s.len() / BLOCK_BYTES;
    let mut seen = false;
    for k in 0..total {
        let b = block(s, k);
        block_fault(b, k as u32, total as u32, seen)?;
        seen = seen | (u32_at(b, KIND_AT) == PERMISSION_KIND);
    }
    Ok(())
}

// The check of a policy: its length, then each block in turn.
pub fn policy_fault(s: &[u8]) -> Result<(), Refusal>
    ensures { fault_of result ≡ policy_fault s.now }
{
    if !good_length(s, POLICY_BLOCKS) {
        return Err(Refusal::PolicyLength);
    }
    blocks_fault(s)
}

// How many blocks of a policy are rules.
pub fn rule_count(s: &[u8]) -> u32
    requires { blocks s.now < 4294967296 }
    ensures { result ≡ rule_count s.now }
{
    let total = s.len() / BLOCK_BYTES;
    let mut rules = 0u32;
    for k in 0..total {
        if u32_at(s, BLOCK_BYTES * k + KIND_AT) == RULE_KIND {
            rules += 1;
        }
    }
    rules
}

// A policy that has passed its check: its image, and the number of its rules. Its stamp is not in it: only what reads or writes a table has need of that.
#[derive(Clone, Copy)]
pub struct Policy<'a> {
    pub image: &'a [u8],
    pub rules: u32,
    ghost accepted: { policy_fault image.now ≡ none },
    ghost rules_are: { rules ≡ rule_count image.now },
}

impl<'a> Policy<'a> {
    // Any bytes as a policy.
    pub fn check(image: &'a [u8]) -> Result<Policy<'a>, Refusal>
        ensures fault { fault_of result ≡ policy_fault image.now }
        ensures image { IfOk result (λ policy. policy.image.now ≡ image.now) }
    {
        policy_fault(image)?;
        Ok(Policy {
            image,
            rules: rule_count(image),
        })
    }

    // Its stamp, made anew by each call.
    pub fn stamp(&self) -> Sum
        ensures { sums_of result ≡ stamp_in self.now.image.now }
    {
        stamp_of(self.image)
    }

    // The block of the rule of an index, from 0.
    pub fn rule(&self, i: u32) -> &'a [u8; BLOCK_BYTES]
        requires { i < self.now.rules }
        ensures { result.now ≡ block_of self.now.image.now i }
    {
        block(self.image, i as usize)
    }
}
