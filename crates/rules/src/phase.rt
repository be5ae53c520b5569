ghost use Rattle.std.specs.Prelude.{◌≡◌, ◌<◌, MatchResult};
ghost use Rattle.rules.specs.Phase.{phase_number};

// Where a process stands in its current call, by the numbers of PHASE.
#[derive(Clone, Copy, Debug, PartialEq, Eq)]
pub enum Phase {
    Start,
    Enlist,
    SecondTry,
    Delist,
    SetSwitch,
    Waiting,
    Notify,
    Stopped,
}

// A word that is no phase.
#[derive(Clone, Copy, Debug, PartialEq, Eq)]
pub struct NoPhase(pub usize);

impl TryFrom<usize> for Phase {
    type Error = NoPhase;

    ghost try_from_gives = { λ word r. MatchResult r (λ phase. phase_number phase ≡ word) (λ e. (e.0 ≡ word) × (7 < word)) };

    #[tactic(auto, unfolding(crate::specs::Phase::phase_number))]
    fn try_from(word: usize) -> Result<Phase, NoPhase> {
        match word {
            0 => Ok(Phase::Start),
            1 => Ok(Phase::Enlist),
            2 => Ok(Phase::SecondTry),
            3 => Ok(Phase::Delist),
            4 => Ok(Phase::SetSwitch),
            5 => Ok(Phase::Waiting),
            6 => Ok(Phase::Notify),
            7 => Ok(Phase::Stopped),
            _ => Err(NoPhase(word)),
        }
    }
}

impl From<Phase> for u16 {
    ghost from_gives = { λ phase word. word ≡ phase_number phase };

    #[tactic(auto, unfolding(crate::specs::Phase::phase_number))]
    fn from(phase: Phase) -> u16 {
        match phase {
            Phase::Start => 0,
            Phase::Enlist => 1,
            Phase::SecondTry => 2,
            Phase::Delist => 3,
            Phase::SetSwitch => 4,
            Phase::Waiting => 5,
            Phase::Notify => 6,
            Phase::Stopped => 7,
        }
    }
}
