ghost use Rattle.std.specs.Prelude.{◌≡◌, ◌+◌, ◌≤◌, length, IfOk, IfSome};
ghost use Rattle.io.specs.Counts.{IsPrefixLen};
ghost use Rattle.trialing.specs.Answers.{line_room};

use crate::answer::put_line;
use crate::trial::{Ending, Trial, load};
use files::read_full;
use std::fs::File;
use std::io::Print;
use text::Text;

// Nothing says that an input ends, so the windows are counted.
const WINDOWS: usize = 0xffff_ffff;

// Room for one line.
const ROOM: usize = 1500;

// What io::large_buffer gives: the window of input, and the lines.
type Buffer = [u8; 65536];

// Writes the lines out where another may not fit. Their end is a number: a Text would keep the buffer lent.
fn with_room(rt: &HostRuntime, out: &Buffer, end: usize) -> std::io::Result<usize>
    requires { end ≤ length out.now }
    ensures { IfOk result (λ start. start + line_room ≤ length out.now) }
{
    if ROOM <= out.len() - end {
        return Ok(end);
    }
    rt.stdout().write_all(&out[..end])?;
    Ok(0)
}

// Loads the words of a trial into a table that has so many, and answers the trial.
fn put_trial(trial: Trial, out: &mut Buffer, start: usize) -> usize
    requires { start + line_room ≤ length out.old }
    ensures { result ≤ length out.new }
{
    let mut table = [0; Trial::WORDS];
    let table = &mut table[..trial.words.len() / 2];
    load(trial.words, table);
    let mut text = Text::new(out, start);
    put_line(&mut text, trial, table);
    text.end()
}

// Answers the whole trials of a window: how many bytes are left behind them, and what ends them. The runtime stays apart from the lines: they are lent to be written, and it is not.
fn answer_all(rt: &HostRuntime, input: &[u8], out: &mut Buffer) -> std::io::Result<(usize, Ending)>
    ensures { IfOk result (λ a. a.0 ≤ length input.now) }
{
    let mut rest = input;
    let mut end = 0;
    let ending = loop {
        match Trial::read(rest) {
            Ok((trial, behind)) => {
                let start = with_room(rt, out, end)?;
                end = put_trial(trial, out, start);
                rest = behind;
            }
            Err(ending) => break ending,
        }
    };
    rt.stdout().write_all(&out[..end])?;
    Ok((rest.len(), ending))
}

// Reads on behind the bytes that are left: the bytes that are there then.
fn fill(file: &mut File, input: &mut Buffer, left: usize) -> usize
    requires { left ≤ length input.old }
    ensures { IsPrefixLen result input.new }
{
    left + read_full(file, &mut input[left..])
}

// Fills the window and answers; where the input goes on, how many bytes at the window's start are still to be answered. The bytes left are a number and no slice: the window is read into and moved in between.
fn answer_window(
    rt: &HostRuntime,
    file: &mut File,
    input: &mut Buffer,
    left: usize,
    out: &mut Buffer,
) -> std::io::Result<Option<usize>>
    requires { left ≤ length input.old }
    ensures { IfOk result (λ on. IfSome on (λ left. left ≤ length input.new)) }
{
    let filled = fill(file, input, left);
    let (behind, ending) = answer_all(rt, &input[..filled], out)?;
    if ending == Ending::Cut && filled == input.len() {
        input.copy_within(filled - behind.., 0);
        return Ok(Some(behind));
    }
    if 0 < behind {
        rt.stdout().write_all(b"STOP\n")?;
    }
    Ok(None)
}

fn answer_file(rt: &HostRuntime, file: &mut File) -> std::io::Result<()> {
    let mut input = io::large_buffer();
    let mut out = io::large_buffer();
    let mut left = 0;
    for _ in 0..WINDOWS {
        let Some(more) = answer_window(rt, file, &mut input, left, &mut out)? else {
            break;
        };
        left = more;
    }
    Ok(())
}

pub fn run(rt: &HostRuntime) -> std::io::Result<()> {
    let Ok(mut file) = File::open(rt, "trials.bin") else {
        return Ok(());
    };
    answer_file(rt, &mut file)
}
