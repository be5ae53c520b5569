// The playing program: what it writes is a function of the bytes of `set.bin` and of `turns.bin`.
#![tactic(auto)]

ghost use Rattle.std.specs.Prelude.{◌≤◌, length};

mod line;
mod play;

use files::read_full;
use play::put_play;
use routine::Set;
use std::fs::File;
use std::io::Print;

// One byte more than a good set has at the most, and one more than a play may have turns.
const SET: usize = Set::PROCESSES * Set::BLOCK + 1;

const TURNS: usize = Set::TURNS + 1;

// Room for the header, a line for each turn and the last line.
const ROOM: usize = 25 + 50 * TURNS;

// The bytes of a file, as many as fit the buffer, at whose start they stand; an absent file counts as empty.
fn read_file<'a>(rt: &HostRuntime, path: &str, buffer: &'a mut [u8]) -> &'a [u8]
    ensures { length result.now ≤ length buffer.old }
{
    let end = File::open(rt, path).map_or(0, |mut file| read_full(&mut file, buffer));
    &buffer[..end]
}

// Writes out what a play puts. Apart from `run`: beside the two reads its buffer would be filled with zeros twice.
fn write_play(rt: &HostRuntime, set: &[u8], turns: &[u8]) -> std::io::Result<()> {
    let mut out = [0; ROOM];
    let end = put_play(&mut out, set, turns);
    rt.stdout().write_all(&out[..end])
}

pub fn run(rt: &HostRuntime) -> std::io::Result<()> {
    let mut set = [0; SET];
    let set = read_file(rt, "set.bin", &mut set);
    let mut turns = [0; TURNS];
    let turns = read_file(rt, "turns.bin", &mut turns);
    write_play(rt, set, turns)
}
