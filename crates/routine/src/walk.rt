ghost use Rattle.std.specs.Prelude.{◌≡◌, ℕ, ◌-◌, ◌<◌, ◌≤◌, ◌↔◌, IsTrue, slice_index, Result};
ghost use Rattle.routine.specs.Limits.{most_bases};
ghost use Rattle.routine.specs.Routines.{free};
ghost use Rattle.routine.specs.GoodFile.{file_routines};
ghost use Rattle.routine.specs.Rows.{mark_in};
ghost use Rattle.routine.specs.Refusal.{unless};
ghost use Rattle.routine.specs.Judging.{call_good, judgement};
ghost use Rattle.routine.specs.Kind.{kind_number};

use crate::good_file::GoodFile;
use crate::holds::{FREE, Row, fine, mark_in, marked};
use crate::kind::Kind;
use crate::refusal::Refusal;
use crate::set::Set;

// Whether every base held has a number below b.
fn only_lower(row: Row, b: usize) -> bool
    ensures { IsTrue result ↔ ((i : ℕ) → b - 1 ≤ i → i < most_bases → slice_index row i ≡ free) }
{
    row.iter()
        .skip(b.saturating_sub(1))
        .all(|mark| *mark == FREE)
}

fn nothing_held(row: Row) -> bool
    ensures { IsTrue result ↔ ((i : ℕ) → i < most_bases → slice_index row i ≡ free) }
{
    only_lower(row, 1)
}

// Whether a call is good where the row is held.
#[tactic(auto, unfolding(crate::specs::Judging::call_good, crate::specs::Judging::is_take, crate::specs::Kind::kind_number))]
fn call_good(row: Row, kind: Kind, base: usize) -> bool
    ensures { result ≡ call_good (mark_in row) (kind_number kind) base }
{
    match kind {
        Kind::Modlock | Kind::Readlock => only_lower(row, base),
        Kind::Unlock | Kind::Decrease => fine(usize::from(kind), mark_in(row, base)),
    }
}

// Refusal 4 with the first failing call in file order.
#[tactic(auto, unfolding(crate::specs::Judging::failing_block, crate::specs::Reading::first_block))]
pub(crate) fn judgement(file: GoodFile<'_>) -> Result<(), Refusal>
    ensures { result ≡ unless (judgement (file_routines file.entry)) tt }
{
    let mut verdict = Ok(());
    // Both loops are left by a label (docs/FORMS.md).
    'walk: for p in 1..=file.processes() {
        let calls = file.calls_in(p);
        let mut row = [FREE; Set::BASES];
        for k in 0..calls {
            let call = file.call_at(p, k).unwrap();
            let kind = Kind::try_from(call.kind).unwrap();
            if !call_good(row, kind, call.base) {
                let place = k + 1;
                verdict = Err(Refusal::Routine { block: p, place });
                break 'walk;
            }
            // By way of `next`: the language assigns no call's result to an array that stands already.
            let next = marked(row, call.kind, call.base);
            row = next;
        }
        if !nothing_held(row) {
            let place = calls + 1;
            verdict = Err(Refusal::Routine { block: p, place });
            break 'walk;
        }
    }
    verdict
}
