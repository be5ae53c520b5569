ghost use Rattle.std.specs.Prelude.{◌≡◌};
ghost use Rattle.routine.specs.Limits.{set_of};
ghost use Rattle.routine.specs.Routines.{routines};
ghost use Rattle.routine.specs.Rules.{WellFormed};

use crate::set::Set;

// Apart, since they speak of the definitions over this type (specs/GoodFile.antt).
mod calls;

// A file that the reader does not refuse.
#[derive(Clone, Copy)]
pub struct GoodFile<'a> {
    bytes: &'a [u8],
    set: Set,
    ghost formed: { WellFormed (routines bytes.now) },
    ghost about: { set ≡ set_of (routines bytes.now).N (routines bytes.now).B },
}
