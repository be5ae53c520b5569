ghost use Rattle.std.specs.Prelude.{◌≡◌, false, MatchResult};
ghost use Rattle.routine.specs.Routines.{modlock, decrease};
ghost use Rattle.routine.specs.Test.{within};
ghost use Rattle.routine.specs.Kind.{kind_number};

use crate::calls::Call;

// The kind of a call of a good file. `Call` has it as a number.
#[derive(Clone, Copy, Debug, PartialEq, Eq)]
pub enum Kind {
    Modlock,
    Readlock,
    Unlock,
    Decrease,
}

// A number that is no kind.
#[derive(Clone, Copy, Debug, PartialEq, Eq)]
pub struct NoKind(pub usize);

impl TryFrom<usize> for Kind {
    type Error = NoKind;

    ghost try_from_gives = { λ number r. MatchResult r (λ kind. kind_number kind ≡ number) (λ e. (e.0 ≡ number) × (within modlock decrease number ≡ false)) };

    #[tactic(auto, unfolding(crate::specs::Kind::kind_number, crate::specs::Test::within, crate::specs::Test::and))]
    fn try_from(number: usize) -> Result<Kind, NoKind> {
        match number {
            Call::MODLOCK => Ok(Kind::Modlock),
            Call::READLOCK => Ok(Kind::Readlock),
            Call::UNLOCK => Ok(Kind::Unlock),
            Call::DECREASE => Ok(Kind::Decrease),
            _ => Err(NoKind(number)),
        }
    }
}

impl From<Kind> for usize {
    ghost from_gives = { λ kind number. number ≡ kind_number kind };

    #[tactic(auto, unfolding(crate::specs::Kind::kind_number))]
    fn from(kind: Kind) -> usize {
        match kind {
            Kind::Modlock => Call::MODLOCK,
            Kind::Readlock => Call::READLOCK,
            Kind::Unlock => Call::UNLOCK,
            Kind::Decrease => Call::DECREASE,
        }
    }
}
