ghost use Rattle.std.specs.Prelude.{◌≡◌, ◌+◌, ◌≤◌, length};
ghost use Rattle.routine.specs.Reading.{reading};
ghost use Rattle.routine.specs.Judging.{judging};
ghost use Rattle.rules.specs.Answers.{making, made_table, turning, turned_table, standing};
ghost use Rattle.text.specs.Text.{text_bytes, text_end, Puts, Writes};
ghost use Rattle.trialing.specs.Answers.{PutsSaid, said, refusal_text, set_text, did_text, stands_text, passes, fresh, table_text, call_said, call_table, answer_text, trial_line, answer_room, line_room};
ghost use Rattle.trialing.specs.Trial.{most_words, words_of};

use crate::trial::{Op, Trial};
use routine::Refusal;
use routine::refusal::Shown;
use rules::{Answer, Standing};
use text::Text;

fn put_read(text: &mut Text<'_>, file: &[u8]) -> Result<(), Refusal>
    ensures { PutsSaid text.old text.new (said set_text (reading file.now)) result }
{
    let set = routine::read(file)?;
    text.put_bytes(b"READ ");
    text.put_field(set.processes);
    text.put_decimal(set.bases);
    Ok(())
}

fn put_judge(text: &mut Text<'_>, file: &[u8]) -> Result<(), Refusal>
    ensures { PutsSaid text.old text.new (said (λ _. passes) (judging file.now)) result }
{
    routine::judge(file)?;
    text.put_bytes(b"PASSES");
    Ok(())
}

fn put_fresh(text: &mut Text<'_>, table: &mut [u16]) -> Result<(), Refusal>
    ensures said { PutsSaid text.old text.new (said (λ _. fresh) (making table.old)) result }
    ensures table { table.new ≡ made_table table.old }
{
    interlock::fresh(table)?;
    text.put_bytes(b"FRESH");
    Ok(())
}

fn put_turn(
    text: &mut Text<'_>,
    file: &[u8],
    table: &mut [u16],
    process: usize,
) -> Result<(), Refusal>
    ensures said { PutsSaid text.old text.new (said did_text (turning file.now table.old process)) result }
    ensures table { table.new ≡ turned_table file.now table.old process }
{
    // The player has the same two words in a text of its own.
    match interlock::turn(file, table, process)? {
        Answer::Moved => text.put_bytes(b"MOVED"),
        Answer::Idle => text.put_bytes(b"IDLE"),
    }
    Ok(())
}

fn put_standing(text: &mut Text<'_>, file: &[u8], table: &[u16]) -> Result<(), Refusal>
    ensures { PutsSaid text.old text.new (said stands_text (standing file.now table.now)) result }
{
    let standing = interlock::standing(file, table)?;
    text.put_bytes(b"STANDING ");
    text.put_decimal(usize::from(standing));
    Ok(())
}

// Puts what the call answers, if it refuses nothing. Text and table stay two: each is lent to be written, and the trial is only read.
fn put_call(text: &mut Text<'_>, trial: Trial, table: &mut [u16]) -> Result<(), Refusal>
    ensures said { PutsSaid text.old text.new (call_said trial.entry.op trial.entry.file.now table.old trial.entry.process) result }
    ensures table { table.new ≡ call_table trial.entry.op trial.entry.file.now table.old trial.entry.process }
{
    match trial.op {
        Op::Read => put_read(text, trial.file),
        Op::Judge => put_judge(text, trial.file),
        Op::Fresh => put_fresh(text, table),
        Op::Turn => put_turn(text, trial.file, table, trial.process),
        Op::Standing => put_standing(text, trial.file, table),
    }
}

fn put_refusal(text: &mut Text<'_>, refusal: Refusal)
    ensures { Puts text.old text.new (refusal_text refusal) }
{
    let shown = Shown::from(refusal);
    text.put_bytes(b"REFUSED ");
    text.put_field(usize::from(shown.number));
    text.put_field(shown.block);
    text.put_decimal(shown.place);
}

fn put_table(text: &mut Text<'_>, table: &[u16])
    ensures { Puts text.old text.new (table_text table.now) }
{
    for &word in table {
        text.put_byte(b' ');
        text.put_hexadecimal(word);
    }
}

fn put_answer(text: &mut Text<'_>, trial: Trial, table: &mut [u16])
    ensures puts { Puts text.old text.new (answer_text trial.entry.op trial.entry.file.now table.old trial.entry.process) }
    ensures short { length table.old ≤ most_words → length (answer_text trial.entry.op trial.entry.file.now table.old trial.entry.process) ≤ answer_room }
{
    if let Err(refusal) = put_call(text, trial, table) {
        put_refusal(text, refusal);
    }
    if let Op::Fresh | Op::Turn = trial.op {
        put_table(text, table);
    }
}

// The line of a trial, whose words stand in the table. Room is a clause: it is a fact about one text before one call.
pub(crate) fn put_line(text: &mut Text<'_>, trial: Trial, table: &mut [u16])
    requires room { text_end text.old + line_room ≤ length (text_bytes text.old) }
    requires words { table.old ≡ words_of trial.words.now }
    ensures writes { Writes text.old text.new (trial_line trial.entry.op trial.entry.file.now table.old trial.entry.process) }
    ensures short { text_end text.new ≤ text_end text.old + line_room }
{
    text.put_field(usize::from(trial.op));
    put_answer(text, trial, table);
    text.put_byte(b'\n');
}
