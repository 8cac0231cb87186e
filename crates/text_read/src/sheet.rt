// What is read so far.
use drafts::kept::KEPT_BYTES;
use fields::layout::BLOCK_BYTES;
use tags::span::Span;

// The exclusion and the rule that are being read, each in its block, and where the rule's context stands; how many rules have ended, up to one more than
// there may be, and their blocks.
#[derive(Clone, Copy)]
pub struct Sheet {
    pub exclusion: [u8; BLOCK_BYTES],
    pub rule: [u8; BLOCK_BYTES],
    pub context: Span,
    pub rules: usize,
    pub kept: [u8; KEPT_BYTES],
}
