// Sets of a table's blocks.
ghost use Rattle.std.specs.Prelude.{◌≡◌, ◌&&◌, ◌||◌, ℕ, ◌<◌, ◌≤◌, eqb, leb, ltb};
ghost use Rattle.format.specs.Layout.{table_blocks};
ghost use Rattle.fields.specs.Code.{has_block, no_block};

// A set of a table's blocks: block k at bit k.
#[derive(Clone, Copy, Debug, PartialEq, Eq)]
pub struct BlockSet(pub u128);

impl BlockSet {
    // No block.
    pub fn none() -> Self
        ensures { result ≡ no_block }
    {
        BlockSet(0)
    }

    // Block k is among them.
    pub fn has(self, k: usize) -> bool
        requires { k < table_blocks }
        ensures { result ≡ has_block self k }
    {
        (self.0 >> k) % 2 == 1
    }

    // These and block k.
    pub fn with(self, k: usize) -> Self
        requires { k < table_blocks }
        ensures { (i : ℕ) → has_block result i ≡ (eqb i k || has_block self i) }
    {
        BlockSet(self.0 | (1 << k))
    }

    // These and the blocks from, .., to - 1.
    pub fn with_range(self, from: usize, to: usize) -> Self
        requires { (from ≤ to) × (to ≤ table_blocks) }
        ensures { (i : ℕ) → has_block result i ≡ ((leb from i && ltb i to) || has_block self i) }
    {
        let mut set = self;
        for k in from..to {
            set = set.with(k);
        }
        set
    }
}
