ghost use Rattle.std.specs.Prelude.{◌≡◌};
ghost use Rattle.routine.specs.Block.{check, check_shown, check_right};

use crate::block::Block;
use crate::set::Set;

// The check that a block ought to show.
#[tactic(auto, unfolding(crate::specs::Sum::sum_below))]
fn check(block: &Block) -> usize
    ensures { result ≡ check block.now }
{
    let mut sum = 1;
    for (i, byte) in block[..Set::CHECKED].iter().enumerate() {
        sum += (i + 1) * usize::from(*byte);
    }
    sum
}

// The check that a block shows.
#[tactic(auto, unfolding(crate::specs::Block::check_shown))]
fn check_shown(block: &Block) -> usize
    ensures { result ≡ check_shown block.now }
{
    let [.., a, b, c, d] = *block;
    // The language has no From<u32> for usize.
    u32::from_le_bytes([a, b, c, d]) as usize
}

#[tactic(auto, unfolding(crate::specs::Block::check_right))]
pub(crate) fn check_right(block: &Block) -> bool
    ensures { result ≡ check_right block.now }
{
    check(block) == check_shown(block)
}
