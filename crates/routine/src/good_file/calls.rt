ghost use Rattle.std.specs.Prelude.{◌≡◌, ◌≤◌, MatchResult, Ok, Err};
ghost use Rattle.routine.specs.Limits.{most_processes};
ghost use Rattle.routine.specs.Reading.{reading};
ghost use Rattle.routine.specs.Calls.{call_at, calls_in};
ghost use Rattle.routine.specs.GoodFile.{file_bytes, file_set, file_routines};

use super::GoodFile;
use crate::calls::{Call, call_at, calls_in};
use crate::refusal::Refusal;
use crate::set::Set;

impl<'a> GoodFile<'a> {
    // Refusals 1, 2 and 3, in this order.
    #[tactic(auto, using(crate::proofs::Refused::good_is, crate::proofs::Formed::not_refused))]
    pub fn read(file: &'a [u8]) -> Result<GoodFile<'a>, Refusal>
        ensures { MatchResult result (λ g. (reading file.now ≡ Ok (file_set g)) × (file_bytes g ≡ file.now)) (λ r. reading file.now ≡ Err r) }
    {
        let set = crate::read(file)?;
        Ok(GoodFile { bytes: file, set })
    }

    pub fn bytes(self) -> &'a [u8]
        ensures { result.now ≡ file_bytes self.entry }
    {
        self.bytes
    }

    // What the file is about.
    pub fn set(self) -> Set
        ensures { result ≡ file_set self.entry }
    {
        self.set
    }

    pub fn processes(self) -> usize
        ensures { (result ≡ (file_routines self.entry).N) × (result ≤ most_processes) }
    {
        self.set.processes
    }

    pub fn calls_in(self, p: usize) -> usize
        ensures { result ≡ calls_in (file_bytes self.entry) p }
    {
        calls_in(self.bytes, p)
    }

    // The kind is a number, as `calls::call_at` gives it; who tells calls apart makes a `Kind` of it.
    pub fn call_at(self, p: usize, k: usize) -> Option<Call>
        ensures { result ≡ call_at (file_bytes self.entry) p k }
    {
        call_at(self.bytes, p, k)
    }
}
