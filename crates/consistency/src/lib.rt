// When file, table and process go together: the checks that come before a turn and a standing. File and table come as a host has them, as two slices.
#![tactic(auto, unfolding(routine::specs::Test::and, routine::specs::Test::implies, routine::specs::Test::within, routine::specs::Kind::kind_number, rules::specs::Phase::phase_number, rules::specs::Consistent::call_fits, rules::specs::Consistent::stands_well, rules::specs::Consistent::process_zero, rules::specs::Consistent::base_zero, crate::specs::Following::row_with, crate::specs::Following::fine_in, crate::specs::Holders::base_fits_in, crate::specs::Holders::base_good_in))]

ghost use Rattle.std.specs.Prelude.{◌≡◌, MatchResult, Ok, Err};
ghost use Rattle.routine.specs.GoodFile.{file_bytes, file_set};
ghost use Rattle.rules.specs.Answers.{checking};

mod bases;
mod consistent;
pub mod held;
mod marks;
mod processes;

use consistent::Pair;
use routine::range::within;
use routine::{GoodFile, Refusal, Set};

// File, table and process number together: refusals 1, 2, 3, 5, 6, 7, in this order, else the file.
pub fn ready<'a>(file: &'a [u8], table: &[u16], process: usize) -> Result<GoodFile<'a>, Refusal>
    ensures { MatchResult result (λ g. (checking file.now table.now process ≡ Ok (file_set g)) × (file_bytes g ≡ file.now)) (λ r. checking file.now table.now process ≡ Err r) }
{
    let good = GoodFile::read(file)?;
    if table.len() != Set::WORDS {
        return Err(Refusal::Words);
    }
    let pair = Pair { file: good, table };
    if !pair.consistent() {
        return Err(Refusal::Table);
    }
    if !within(1, good.processes(), process) {
        return Err(Refusal::Process);
    }
    Ok(good)
}

// The same, else what the file is about.
pub fn checked(file: &[u8], table: &[u16], process: usize) -> Result<Set, Refusal>
    ensures { result ≡ checking file.now table.now process }
{
    Ok(ready(file, table, process)?.set())
}
