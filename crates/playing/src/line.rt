ghost use Rattle.std.specs.Prelude.{◌≡◌, ◌≤◌, length};
ghost use Rattle.rules.specs.Answers.{standing, turning, turned_table};
ghost use Rattle.text.specs.Text.{Puts};
ghost use Rattle.playing.specs.Play.{refusal_line, word, line_of, last_line, AnswerPut};

use routine::Refusal;
use routine::refusal::Shown;
use rules::{Answer, Standing};
use text::Text;
use words::{call, phase};

#[tactic(auto, unfolding(crate::specs::Play::refusal_line))]
pub(crate) fn put_refusal(text: &mut Text<'_>, refusal: Refusal)
    ensures { Puts text.old text.new (refusal_line refusal) }
{
    let shown = Shown::from(refusal);
    text.put_refused(usize::from(shown.number), shown.block);
}

// Fixed byte strings (docs/FORMS.md).
#[tactic(auto, unfolding(crate::specs::Play::word))]
fn word(answer: Answer) -> &'static [u8]
    ensures { result.now ≡ word answer }
{
    match answer {
        Answer::Moved => b"MOVED",
        Answer::Idle => b"IDLE",
    }
}

// Plays turn i, by a process, and puts its line, unless it is refused. Text, file and table stay apart: two are lent to be written.
pub(crate) fn put_line(
    text: &mut Text<'_>,
    i: usize,
    process: u8,
    file: &[u8],
    table: &mut [u16],
) -> Result<(), Refusal>
    ensures table { table.new ≡ turned_table file.now table.old process }
    ensures line { AnswerPut text.old text.new (turning file.now table.old process) (line_of table.new i process) result }
{
    let process = usize::from(process);
    let answer = interlock::turn(file, table, process)?;
    let call = call(table, process);
    let phase = phase(table, process);
    text.put_turn(i, process, call, phase, word(answer));
    Ok(())
}

// Puts the line that ends the play, unless the standing is refused.
pub(crate) fn put_standing(text: &mut Text<'_>, file: &[u8], table: &[u16]) -> Result<(), Refusal>
    ensures { AnswerPut text.old text.new (standing file.now table.now) last_line result }
{
    let standing = interlock::standing(file, table)?;
    text.put_standing(usize::from(standing));
    Ok(())
}
