ghost use Rattle.std.specs.Prelude.{◌≡◌, ◌≤◌};
ghost use Rattle.routine.specs.GoodFile.{file_routines};
ghost use Rattle.routine.specs.Kind.{kind_number};
ghost use Rattle.rules.specs.Phase.{phase_number};
ghost use Rattle.rules.specs.Consistent.{call_fits, stands_well, process_zero, process_fits, process_good};
ghost use Rattle.consistency.specs.Following.{row_now};
ghost use Rattle.consistency.specs.Holders.{Fitted};

use crate::consistent::Pair;
use crate::held::follow;
use crate::marks::marks_allowed;
use routine::calls::Call;
use routine::holds::{FREE, Mark, Row, fine, mark_in, marked};
use routine::{Kind, Set};
use rules::Phase;
use words::{call, entry, phase, wake};

// CALL k is at most n, and n only in phase 0.
fn call_fits(n: usize, k: usize, phase: Phase) -> bool
    ensures { result ≡ call_fits n k (phase_number phase) }
{
    k < n || (k == n && matches!(phase, Phase::Start))
}

// Whether a phase may stand at a call of this kind, whose base has the mark old.
fn stands_well(phase: Phase, kind: Kind, old: Mark) -> bool
    ensures { result ≡ stands_well (phase_number phase) (kind_number kind) old }
{
    let fine = fine(usize::from(kind), old);
    match (phase, kind) {
        (Phase::Start, _) => true,
        (Phase::SetSwitch, Kind::Modlock) => fine,
        (
            Phase::Enlist | Phase::SecondTry | Phase::Delist | Phase::Waiting,
            Kind::Modlock | Kind::Readlock,
        ) => fine,
        (Phase::Notify, Kind::Unlock | Kind::Decrease) => fine,
        (Phase::Stopped, _) => !fine,
        _ => false,
    }
}

// In phases 3 and 6 what is held is as after the current call.
fn held_now(row: Row, phase: Phase, call: Call) -> Row
    ensures { result ≡ row_now row (phase_number phase) call }
{
    match phase {
        Phase::Delist | Phase::Notify => marked(row, call.kind, call.base),
        _ => row,
    }
}

// Whether the words of process p, above N, are zero.
fn process_blank(table: &[u16], p: usize) -> bool
    ensures { result ≡ process_zero table.now p }
{
    call(table, p) == 0 && phase(table, p) == 0 && wake(table, p) == 0 && entry(table, p) == 0
}

impl Pair<'_> {
    // What process p, 1 to N, holds, where its words are consistent.
    fn process_fits(self, p: usize) -> Option<Row>
        requires { (1 ≤ p) × (p ≤ (file_routines self.file).N) }
        ensures { Fitted process_fits (file_routines self.entry.file) self.entry.table.now p result }
    {
        let phase = Phase::try_from(phase(self.table, p)).ok()?;
        let k = call(self.table, p);
        if !call_fits(self.file.calls_in(p), k, phase) {
            return None;
        }
        if !marks_allowed(phase, wake(self.table, p), entry(self.table, p)) {
            return None;
        }
        let row = follow(self.file.bytes(), p, k).ok()?;
        let Some(call) = self.file.call_at(p, k) else {
            return Some(row);
        };
        let kind = Kind::try_from(call.kind).unwrap();
        if !stands_well(phase, kind, mark_in(row, call.base)) {
            return None;
        }
        Some(held_now(row, phase, call))
    }

    // What process p, 1 to 8, holds, where its words are consistent; a process above N holds nothing. That p is the number of a process is a clause: a type that says it would be made anew at each step of a loop.
    pub(crate) fn process_good(self, p: usize) -> Option<Row>
        requires { 1 ≤ p }
        ensures { Fitted process_good (file_routines self.entry.file) self.entry.table.now p result }
    {
        if p <= self.file.processes() {
            self.process_fits(p)
        } else {
            process_blank(self.table, p).then_some([FREE; Set::BASES])
        }
    }
}
