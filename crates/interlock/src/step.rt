ghost use Rattle.std.specs.Prelude.{◌≡◌, ◌≤◌, cond};
ghost use Rattle.routine.specs.GoodFile.{file_bytes, file_routines};
ghost use Rattle.rules.specs.Ready.{Ready};
ghost use Rattle.rules.specs.Turn.{moves, turned};
ghost use Rattle.rules.specs.declared.Answer.TheVariants as An;

use crate::next::Turn;
use crate::notify::notify;
use consistency::held::follow;
use routine::holds::mark_in;
use routine::{GoodFile, Kind};
use rules::{Answer, Phase};
use words::{call, put_words, words_at};

// One turn of process p at a table that was checked. File and table stay two: one is only read, the other is written. What is known of them and of p is a clause: it holds before the turn, and a type would promise it of the table after it too.
pub(crate) fn step(file: GoodFile<'_>, table: &mut [u16], p: usize) -> Answer
    requires { Ready (file_bytes file) table.old × (1 ≤ p) × (p ≤ (file_routines file).N) }
    ensures answer { result ≡ cond (moves (file_routines file.entry) table.old p) An.Moved An.Idle }
    ensures table { table.new ≡ turned (file_routines file.entry) table.old p }
{
    let k = call(table, p);
    let Some(call) = file.call_at(p, k) else {
        return Answer::Idle;
    };
    let kind = Kind::try_from(call.kind).unwrap();
    let row = follow(file.bytes(), p, k).unwrap();
    let turn = Turn {
        // At most 8, as is proved; try_from would test it again.
        process: p as u16,
        kind,
        mark: mark_in(row, call.base),
        words: words_at(table, call.base, p),
    };
    match turn.next() {
        None => Answer::Idle,
        Some(words) => {
            if turn.words.phase == u16::from(Phase::Notify) {
                notify(file, table, call.base);
            }
            put_words(table, call.base, p, words);
            Answer::Moved
        }
    }
}
