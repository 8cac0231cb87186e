// What rules are read from.
ghost use Rattle.std.specs.Prelude.{◌≡◌, ◌≤◌, ◌<◌, ℕ, List};
ghost use Rattle.format.specs.Layout.{policy_blocks};
ghost use Rattle.xml.specs.Names.{number_of};
ghost use Rattle.xml.specs.Read.{or_zero};

use names::good::Names;

// A text and a good list of names; how many permission blocks will stand behind the rules, and how many bytes there are for all.
#[derive(Clone, Copy)]
pub struct Source<'a> {
    pub text: &'a [u8],
    pub names: Names<'a>,
    pub permissions: usize,
    pub room: usize,
    ghost numbers: { (k : ℕ) (w : List ℕ) → or_zero (number_of names.list.now k w) < 65536 },
    ghost few: { permissions ≤ policy_blocks },
}
