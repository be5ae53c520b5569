ghost use Rattle.std.specs.Prelude.{◌≡◌, eqb, take};
ghost use Rattle.std.specs.Bool.{beq};
ghost use Rattle.routine.specs.Routines.{modifies};
ghost use Rattle.routine.specs.GoodFile.{file_set};
ghost use Rattle.rules.specs.Consistent.{base_zero};
ghost use Rattle.consistency.specs.Holders.{lock_fits_in, readers_in, base_fits_in, base_good_in, bases_good_in};

use crate::consistent::Pair;
use routine::Set;
use routine::holds::{MODIFIES, Mark, READS, Row, mark_in};
use words::{count, lock, nomore};

// Who holds which base in which way: a row of marks for each process, by value (docs/FORMS.md).
pub(crate) type Holders = [Row; Set::PROCESSES];

// Whether LOCK names p exactly where p, which holds the base with this mark, modifies it.
fn owner_right(lock: usize, p: usize, mark: Mark) -> bool
    ensures { result ≡ beq (eqb lock p) (eqb mark modifies) }
{
    (lock == p) == (mark == MODIFIES)
}

// LOCK of b is p exactly if p modifies b, else 0.
fn lock_fits(lock: usize, rows: &[Row], b: usize) -> bool
    ensures { result ≡ lock_fits_in lock rows.now b }
{
    lock <= rows.len()
        && rows
            .iter()
            .enumerate()
            .all(|(i, row)| owner_right(lock, i + 1, mark_in(*row, b)))
}

// How many of the processes read base b.
fn readers(rows: &[Row], b: usize) -> usize
    ensures { result ≡ readers_in rows.now b }
{
    rows.iter().filter(|row| mark_in(**row, b) == READS).count()
}

// Whether the words of base b, 1 to B, are consistent where the processes hold what the rows say.
fn base_fits(table: &[u16], rows: &[Row], b: usize) -> bool
    ensures { result ≡ base_fits_in table.now rows.now b }
{
    let lock = lock(table, b);
    let count = count(table, b);
    let readers = readers(rows, b);
    nomore(table, b) <= 1
        && lock_fits(usize::from(lock), rows, b)
        && usize::from(count) == readers
        && (lock == 0 || count == 0)
}

// Whether the words of base b, above B, are zero.
fn base_blank(table: &[u16], b: usize) -> bool
    ensures { result ≡ base_zero table.now b }
{
    lock(table, b) == 0 && nomore(table, b) == 0 && count(table, b) == 0
}

// Whether the words of base b, 1 to 16, are consistent where the processes share so many bases.
fn base_good(bases: usize, table: &[u16], rows: &[Row], b: usize) -> bool
    ensures { result ≡ base_good_in bases table.now rows.now b }
{
    if b <= bases {
        base_fits(table, rows, b)
    } else {
        base_blank(table, b)
    }
}

impl Pair<'_> {
    // Whether the words of every base are consistent, where the processes hold what the rows of all eight say.
    pub(crate) fn bases_good(self, all: Holders) -> bool
        ensures { result ≡ bases_good_in (file_set self.entry.file).bases self.entry.table.now (take (file_set self.entry.file).processes all) }
    {
        let set = self.file.set();
        let rows = &all[..set.processes];
        // No all over the range: the proof finds only that it is true where each base is good.
        for b in 1..=Set::BASES {
            if !base_good(set.bases, self.table, rows, b) {
                return false;
            }
        }
        true
    }
}
