ghost use Rattle.std.specs.Prelude.{◌≡◌, ◌+◌, ◌*◌, ◌<◌, ◌≤◌, length};
ghost use Rattle.io.specs.Counts.{IsPrefixLen};
ghost use Rattle.text.specs.Wrote.{Wrote};
ghost use Rattle.text.specs.Text.{text_bytes, text_end};
ghost use Rattle.playing.specs.Play.{playable, lines_from, playing, PutSoFar, line_room, play_room};

use crate::line::{put_line, put_refusal, put_standing};
use routine::{Refusal, Set};
use text::Text;

// Whether the play can begin: refusals 1, 2, 3 and 8, in this order.
fn playable(file: &[u8], turns: &[u8]) -> Result<(), Refusal>
    ensures { result ≡ playable file.now turns.now }
{
    routine::read(file)?;
    if Set::TURNS < turns.len() {
        return Err(Refusal::Turns);
    }
    Ok(())
}

// Plays the turns, and puts their lines and the line that ends the play, up to what is refused. Room is a clause: it is a fact about one text before one call.
fn put_turns(
    text: &mut Text<'_>,
    file: &[u8],
    table: &mut [u16],
    turns: &[u8],
) -> Result<(), Refusal>
    requires { text_end text.old + line_room * (length turns.now + 1) ≤ length (text_bytes text.old) }
    ensures { PutSoFar text.old text.new (lines_from file.now table.old 1 turns.now) result }
{
    for (i, &process) in turns.iter().enumerate() {
        put_line(text, i + 1, process, file, table)?;
    }
    put_standing(text, file, table)
}

// Puts all that the program writes, up to what is refused.
fn put_all(text: &mut Text<'_>, file: &[u8], turns: &[u8]) -> Result<(), Refusal>
    requires { text_end text.old + play_room ≤ length (text_bytes text.old) }
    ensures { PutSoFar text.old text.new (playing file.now turns.now) result }
{
    playable(file, turns)?;
    text.put_header();
    let mut table = [0; Set::WORDS];
    interlock::fresh(&mut table)?;
    put_turns(text, file, &mut table, turns)
}

pub(crate) fn put_play(out: &mut [u8], file: &[u8], turns: &[u8]) -> usize
    requires { play_room ≤ length out.old }
    ensures wrote { Wrote out.old out.new 0 (playing file.now turns.now) result }
    ensures prefix_len { IsPrefixLen result out.new }
{
    let mut text = Text::new(out, 0);
    if let Err(refusal) = put_all(&mut text, file, turns) {
        put_refusal(&mut text, refusal);
    }
    text.end()
}
