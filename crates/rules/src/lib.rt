// What the state table is, when it is consistent, and what one turn does: the types and, in specs/, the definitions. The only code is a phase's and a standing's number; the machine's stands in `words`, `consistency` and `interlock`.
#![tactic(auto)]

ghost use Rattle.std.specs.Prelude.{◌≡◌};
ghost use Rattle.rules.specs.Standing.{standing_number};

mod phase;

pub use phase::{NoPhase, Phase};

// The words of a base and of a process, which a turn looks at. Numbers and no enums: any word of any table may stand in them.
#[derive(Clone, Copy, Debug, PartialEq, Eq)]
pub struct Words {
    pub lock: u16,
    pub nomore: u16,
    pub count: u16,
    pub call: u16,
    pub phase: u16,
    pub wake: u16,
    pub entry: u16,
}

// What a turn that is not refused answers.
#[derive(Clone, Copy, Debug, PartialEq, Eq)]
pub enum Answer {
    Moved,
    Idle,
}

// What the standing that is not refused answers: every routine finished; not so, and some process would move; neither.
#[derive(Clone, Copy, Debug, PartialEq, Eq)]
pub enum Standing {
    Finished,
    Moving,
    Stuck,
}

impl From<Standing> for usize {
    ghost from_gives = { λ standing n. n ≡ standing_number standing };

    #[tactic(auto, unfolding(crate::specs::Standing::standing_number))]
    fn from(standing: Standing) -> usize {
        match standing {
            Standing::Finished => 0,
            Standing::Moving => 1,
            Standing::Stuck => 2,
        }
    }
}
