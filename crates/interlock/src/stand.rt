ghost use Rattle.std.specs.Prelude.{◌≡◌, ◌≤◌};
ghost use Rattle.routine.specs.GoodFile.{file_bytes, file_routines};
ghost use Rattle.rules.specs.Ready.{Ready};
ghost use Rattle.rules.specs.Standing.{standing_case};
ghost use Rattle.interlock.specs.Doing.{doing};

use routine::GoodFile;
use rules::{Phase, Standing};
use words::{call, phase, wake};

// A good file and a table that is consistent with it.
#[derive(Clone, Copy)]
pub(crate) struct Checked<'a> {
    pub(crate) file: GoodFile<'a>,
    pub(crate) table: &'a [u16],
    ghost ready: { Ready (file_bytes file) table.now },
}

// What a process is doing. Only one that moves would answer MOVED.
#[derive(Clone, Copy)]
enum Doing {
    Finished,
    Stopped,
    Waits,
    Moves,
}

impl Checked<'_> {
    // What process p is doing. Its own words decide. That p is a process of the file is a clause: a type that says it would be made anew at each step of a loop.
    #[tactic(auto, using(routine::specs::Calls::calls_are), unfolding(crate::specs::Doing::doing, rules::specs::Standing::finished, rules::specs::Phase::phase_number))]
    fn doing(self, p: usize) -> Doing
        requires { (1 ≤ p) × (p ≤ (file_routines self.file).N) }
        ensures { result ≡ doing (file_routines self.entry.file) self.entry.table.now p }
    {
        if call(self.table, p) == self.file.calls_in(p) {
            return Doing::Finished;
        }
        match Phase::try_from(phase(self.table, p)) {
            Ok(Phase::Stopped) => Doing::Stopped,
            Ok(Phase::Waiting) if wake(self.table, p) != 1 => Doing::Waits,
            _ => Doing::Moves,
        }
    }

    pub(crate) fn stand(self) -> Standing
        ensures { result ≡ standing_case (file_routines self.entry.file) self.entry.table.now }
    {
        let mut standing = Standing::Finished;
        for p in 1..=self.file.processes() {
            match self.doing(p) {
                Doing::Moves => return Standing::Moving,
                Doing::Finished => {}
                Doing::Stopped | Doing::Waits => standing = Standing::Stuck,
            }
        }
        standing
    }
}
