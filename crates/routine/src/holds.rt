ghost use Rattle.std.specs.Prelude.{◌≡◌};
ghost use Rattle.routine.specs.Routines.{mark, fine};
ghost use Rattle.routine.specs.Rows.{mark_in, marked_row};

use crate::calls::Call;
use crate::range::within;
use crate::set::Set;

// How a process holds a base. A number and no enum: the calls below take any, and a later one may count.
pub type Mark = u8;

pub const FREE: Mark = 0;

pub const MODIFIES: Mark = 1;

pub const READS: Mark = 2;

// The marks of one process, base b's at b - 1.
pub type Row = [Mark; Set::BASES];

// The mark that a call of this kind leaves on its base, which had the mark old.
#[tactic(auto, unfolding(crate::specs::Routines::mark))]
pub fn mark(kind: usize, old: Mark) -> Mark
    ensures { result ≡ mark kind old }
{
    match kind {
        Call::MODLOCK => MODIFIES,
        Call::READLOCK => READS,
        _ => FREE,
    }
}

// Whether a call of this kind is no logic error where its base has the mark old.
#[tactic(auto, unfolding(crate::specs::Routines::fine))]
pub fn fine(kind: usize, old: Mark) -> bool
    ensures { result ≡ fine kind old }
{
    match kind {
        Call::UNLOCK => old == MODIFIES,
        Call::DECREASE => old == READS,
        _ => old == FREE,
    }
}

// The mark of base b in a row; a base that is not 1 to 16 is free.
#[tactic(auto, unfolding(crate::specs::Rows::mark_in, crate::specs::Test::within, crate::specs::Test::and))]
pub fn mark_in(row: Row, b: usize) -> Mark
    ensures { result ≡ mark_in row b }
{
    if !within(1, Set::BASES, b) {
        return FREE;
    }
    row[b - 1]
}

// The row after a call.
#[tactic(auto, unfolding(crate::specs::Rows::marked_row, crate::specs::Test::within, crate::specs::Test::and))]
pub fn marked(row: Row, kind: usize, b: usize) -> Row
    ensures { result ≡ marked_row row kind b }
{
    if !within(1, Set::BASES, b) {
        return row;
    }
    let mut next = row;
    next[b - 1] = mark(kind, row[b - 1]);
    next
}
