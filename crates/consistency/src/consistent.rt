ghost use Rattle.std.specs.Prelude.{◌≡◌};
ghost use Rattle.routine.specs.GoodFile.{file_routines};
ghost use Rattle.rules.specs.Consistent.{consistent};

use routine::holds::FREE;
use routine::{GoodFile, Set};

// A good file and a table, looked at together.
#[derive(Clone, Copy)]
pub(crate) struct Pair<'a> {
    pub(crate) file: GoodFile<'a>,
    pub(crate) table: &'a [u16],
}

impl Pair<'_> {
    // Whether the table is consistent with the file. What each process holds is worked out once, on the way.
    pub(crate) fn consistent(self) -> bool
        ensures { result ≡ consistent (file_routines self.entry.file) self.entry.table.now }
    {
        let mut all = [[FREE; Set::BASES]; Set::PROCESSES];
        for (i, held) in all.iter_mut().enumerate() {
            let Some(row) = self.process_good(i + 1) else {
                return false;
            };
            *held = row;
        }
        self.bases_good(all)
    }
}
