ghost use Rattle.std.specs.Prelude.{◌≡◌, ◌<◌};
ghost use Rattle.routine.specs.Limits.{checked_bytes};
ghost use Rattle.routine.specs.First.{IsFirstBad};
ghost use Rattle.routine.specs.Block.{call_byte_good, byte_good, fields_right};

use crate::block::Block;
use crate::calls::Call;
use crate::range::within;
use crate::set::Set;

// The field rule of a byte among the calls: kind, then base.
#[tactic(auto, unfolding(crate::specs::Block::call_byte_good))]
fn call_byte_good(bases: usize, i: usize, v: usize) -> bool
    ensures { result ≡ call_byte_good bases i v }
{
    if i % 2 == 0 {
        return within(Call::MODLOCK, Call::DECREASE, v);
    }
    within(1, bases, v)
}

// The block of a process in a file about this set.
#[derive(Clone, Copy)]
pub(crate) struct ProcessBlock<'a> {
    pub(crate) set: Set,
    pub(crate) process: usize,
    pub(crate) block: &'a Block,
}

impl ProcessBlock<'_> {
    // The field rule of byte i.
    #[tactic(auto, unfolding(crate::specs::Block::byte_good, crate::specs::Test::and))]
    fn byte_good(self, i: usize) -> bool
        requires { i < checked_bytes }
        ensures { result ≡ byte_good self.entry.set.processes self.entry.set.bases self.entry.process self.entry.block.now i }
    {
        let ProcessBlock {
            set,
            process,
            block,
        } = self;
        let v = usize::from(block[i]);
        match i {
            0 => v == process,
            1 => v == set.processes,
            2 => v <= Set::CALLS,
            3 => v == set.bases && within(1, Set::BASES, v),
            _ if i < Set::HEAD + 2 * usize::from(block[2]) => call_byte_good(set.bases, i, v),
            _ => v == 0,
        }
    }

    // The first byte that breaks its field rule.
    fn bad_byte(self) -> Option<usize>
        ensures { IsFirstBad (byte_good self.entry.set.processes self.entry.set.bases self.entry.process self.entry.block.now) checked_bytes result }
    {
        // No find over the range: the proof does not reach its answer.
        for i in 0..Set::CHECKED {
            if !self.byte_good(i) {
                return Some(i);
            }
        }
        None
    }

    pub(crate) fn fields_right(self) -> bool
        ensures { result ≡ fields_right self.entry.set.processes self.entry.set.bases self.entry.process self.entry.block.now }
    {
        self.bad_byte().is_none()
    }
}
