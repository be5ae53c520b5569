ghost use Rattle.std.specs.Prelude.{◌≡◌, ◌+◌, ◌<◌, length, get_or, []};
ghost use Rattle.routine.specs.First.{IsFirstBad};
ghost use Rattle.routine.specs.Block.{check_right, fields_right};
ghost use Rattle.routine.specs.Limits.{set_of};
ghost use Rattle.routine.specs.Reading.{length_good};

use crate::block::Block;
use crate::check::check_right;
use crate::fields::ProcessBlock;
use crate::range::within;
use crate::set::Set;

#[tactic(auto, unfolding(crate::specs::Reading::length_good, crate::specs::Test::and))]
pub(crate) fn length_good(length: usize) -> bool
    ensures { result ≡ length_good length }
{
    within(1, Set::PROCESSES * Set::BLOCK, length) && length % Set::BLOCK == 0
}

// N and B of a file of these blocks.
pub(crate) fn set_of(blocks: &[Block]) -> Set
    requires { 0 < length blocks.now }
    ensures { result ≡ set_of (length blocks.now) (get_or (get_or blocks.now 0 []) 3 0) }
{
    Set::new(blocks.len(), usize::from(blocks[0][3]))
}

// The place in the slice of the first block whose check is wrong.
pub(crate) fn wrong_check(blocks: &[Block]) -> Option<usize>
    ensures { IsFirstBad (λ i. check_right (get_or blocks.now i [])) (length blocks.now) result }
{
    blocks.iter().position(|block| !check_right(block))
}

// The place in the slice of the first block that breaks a field rule.
pub(crate) fn wrong_fields(set: Set, blocks: &[Block]) -> Option<usize>
    ensures { IsFirstBad (λ i. fields_right set.processes set.bases (i + 1) (get_or blocks.now i [])) (length blocks.now) result }
{
    blocks.iter().enumerate().position(|(i, block)| {
        let own = ProcessBlock {
            set,
            process: i + 1,
            block,
        };
        !own.fields_right()
    })
}
