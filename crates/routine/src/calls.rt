ghost use Rattle.std.specs.Prelude.{◌≡◌};
ghost use Rattle.routine.specs.Calls.{call_at, calls_in};

use crate::block::block_at;
use crate::set::Set;

// A call: its kind (1 modlock, 2 readlock, 3 unlock, 4 decrease) and its base, from 1.
// The kind is a number and no enum: `call_at` gives any byte of a file that nobody has read yet, and `holds` takes any number. In a good file it is the number of a `Kind`.
#[derive(Clone, Copy, Debug, PartialEq, Eq)]
pub struct Call {
    pub kind: usize,
    pub base: usize,
}

impl Call {
    pub const MODLOCK: usize = 1;

    pub const READLOCK: usize = 2;

    pub const UNLOCK: usize = 3;

    pub const DECREASE: usize = 4;
}

// How many calls the routine of process p has, or 0 where the file has no block p.
#[tactic(auto, unfolding(crate::specs::Calls::calls_in, crate::specs::Routines::routines))]
pub fn calls_in(file: &[u8], p: usize) -> usize
    ensures { result ≡ calls_in file.now p }
{
    block_at(file, p).map_or(0, |block| usize::from(block[2]))
}

// The call at which process p stands when it has completed k calls; none past its last, or past the 32nd.
#[tactic(auto, using(crate::specs::Calls::no_block, crate::specs::Calls::past_calls, crate::specs::Calls::among_calls), unfolding(crate::specs::Routines::routines))]
pub fn call_at(file: &[u8], p: usize, k: usize) -> Option<Call>
    ensures { result ≡ call_at file.now p k }
{
    let block = block_at(file, p)?;
    if usize::from(block[2]).min(Set::CALLS) <= k {
        return None;
    }
    let at = Set::HEAD + 2 * k;
    Some(Call {
        kind: usize::from(block[at]),
        base: usize::from(block[at + 1]),
    })
}
