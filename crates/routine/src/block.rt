ghost use Rattle.std.specs.Prelude.{◌≡◌, true, false, MatchOption};
ghost use Rattle.routine.specs.Test.{within};
ghost use Rattle.routine.specs.Block.{block};
ghost use Rattle.routine.specs.Routines.{routines};

use crate::set::Set;

pub(crate) type Block = [u8; Set::BLOCK];

// Block p of a file, from 1.
#[tactic(auto, using(crate::specs::Test::below_within))]
pub(crate) fn block_at(file: &[u8], p: usize) -> Option<&Block>
    ensures { MatchOption result (within 1 (routines file.now).N p ≡ false) (λ b. (within 1 (routines file.now).N p ≡ true) × (b.now ≡ block file.now p)) }
{
    let (blocks, _) = file.as_chunks();
    blocks.get(p.checked_sub(1)?)
}
