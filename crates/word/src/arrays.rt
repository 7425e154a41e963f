// Arrays.
ghost use Rattle.std.specs.Prelude.{◌≡◌};
ghost use Rattle.word.specs.Layout.{array_in};

use crate::layout::{address, flag, presence, sign, size};

// A present data descriptor of size over 0, wholly in a core of len words.
#[tactic(auto, unfolding(crate::specs::Layout::array_in))]
pub fn array_in(len: usize, w: u64) -> bool
    ensures { result ≡ array_in len w }
{
    let n = usize::from(size(w));
    let end = usize::from(address(w)) + n;
    flag(w) && !sign(w) && presence(w) && 0 < n && end <= len
}
