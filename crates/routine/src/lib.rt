// The routine file: what it is, which file is refused and where, and which file passes.
#![tactic(auto)]

ghost use Rattle.std.specs.Prelude.{◌≡◌};
ghost use Rattle.routine.specs.Reading.{reading};
ghost use Rattle.routine.specs.Judging.{judging};

mod block;
pub mod calls;
mod check;
mod fields;
mod file;
pub mod good_file;
pub mod holds;
pub mod kind;
pub mod range;
pub mod refusal;
pub mod set;
mod walk;

use file::{length_good, set_of, wrong_check, wrong_fields};
pub use good_file::GoodFile;
pub use kind::{Kind, NoKind};
pub use refusal::Refusal;
pub use set::Set;
use walk::judgement;

// Reads any bytes: refusals 1, 2, 3, in this order.
#[tactic(auto, using(crate::proofs::Refused::gives_1, crate::proofs::Refused::length_means))]
pub fn read(file: &[u8]) -> Result<Set, Refusal>
    ensures { result ≡ reading file.now }
{
    if !length_good(file.len()) {
        return Err(Refusal::Length);
    }
    let (blocks, _) = file.as_chunks();
    if let Some(i) = wrong_check(blocks) {
        return Err(Refusal::Check(i + 1));
    }
    let set = set_of(blocks);
    if let Some(i) = wrong_fields(set, blocks) {
        return Err(Refusal::Fields(i + 1));
    }
    Ok(set)
}

// Judges any bytes: refusals 1, 2, 3, then 4 with the first failing call in file order.
#[tactic(auto, using(crate::proofs::Passing::judge_walks, crate::proofs::Passing::file_refused, crate::proofs::Refused::refused_is, crate::proofs::Refused::good_is, crate::specs::Refusal::handed_on))]
pub fn judge(file: &[u8]) -> Result<(), Refusal>
    ensures { result ≡ judging file.now }
{
    judgement(GoodFile::read(file)?)
}
