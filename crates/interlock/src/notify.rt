ghost use Rattle.std.specs.Prelude.{◌≡◌, ◌≤◌};
ghost use Rattle.routine.specs.GoodFile.{file_routines};
ghost use Rattle.rules.specs.Turn.{waits, notified};

use routine::GoodFile;
use words::{call, entry, put_marks};

// Whether process q stands on the waiting list for base b. File and table stay two: `notify` writes the table between two looks. That q is a process of the file is a clause: a type that says it would be made anew at each step of a loop.
#[tactic(auto, unfolding(routine::specs::Test::and, rules::specs::Turn::waits))]
fn waits(file: GoodFile<'_>, table: &[u16], b: usize, q: usize) -> bool
    requires { (1 ≤ q) × (q ≤ (file_routines file).N) }
    ensures { result ≡ waits (file_routines file.entry) table.now b q }
{
    if entry(table, q) != 1 {
        return false;
    }
    match file.call_at(q, call(table, q)) {
        Some(now) => now.base == b,
        // Where there is no call, the definition's base is 0.
        None => 0 == b,
    }
}

// Every process on the waiting list for base b is taken off it, and gets its wakeup.
#[tactic(auto, unfolding(rules::specs::Turn::notified))]
pub(crate) fn notify(file: GoodFile<'_>, table: &mut [u16], b: usize)
    ensures { table.new ≡ notified (file_routines file.entry) b table.old (file_routines file.entry).N }
{
    for q in 1..=file.processes() {
        if waits(file, table, b, q) {
            put_marks(table, q, 1, 0);
        }
    }
}
