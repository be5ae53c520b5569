// The machine: the fresh table, one turn of one process, and the standing of a table. Each call takes every input, file and table as a host has them: two slices.
#![tactic(auto)]

ghost use Rattle.std.specs.Prelude.{◌≡◌};
ghost use Rattle.rules.specs.Answers.{standing, TurnDone, TableMade};

mod next;
mod notify;
mod stand;
mod step;

use consistency::ready;
use routine::{Refusal, Set};
use rules::{Answer, Standing};
use stand::Checked;
use step::step;

// 80 zero words in the lent table, or refusal 5.
#[tactic(auto, unfolding(routine::specs::Refusal::given, routine::specs::Refusal::unless, rules::specs::Table::fresh, rules::specs::Answers::size_refusal, rules::specs::Answers::making, rules::specs::Answers::made_table))]
pub fn fresh(table: &mut [u16]) -> Result<(), Refusal>
    ensures { TableMade table.old result table.new }
{
    if table.len() != Set::WORDS {
        return Err(Refusal::Words);
    }
    // A local array, copied (docs/FORMS.md).
    let blank = [0; Set::WORDS];
    table.copy_from_slice(&blank);
    Ok(())
}

// One turn of one process: refusals 1, 2, 3, 5, 6, 7, in this order, else MOVED or IDLE. A refused call changes no word.
pub fn turn(file: &[u8], table: &mut [u16], process: usize) -> Result<Answer, Refusal>
    ensures { TurnDone file.now table.old process result table.new }
{
    let good = ready(file, table, process)?;
    Ok(step(good, table, process))
}

// The standing of a table: refusals 1, 2, 3, 5, 6, in this order. Every good file has a process 1, so that 7 is never due.
pub fn standing(file: &[u8], table: &[u16]) -> Result<Standing, Refusal>
    ensures { result ≡ standing file.now table.now }
{
    let good = ready(file, table, 1)?;
    Ok(Checked { file: good, table }.stand())
}
