// The named words of a state table, for a table of any length and any base and process: a word past the table's end reads as 0 and is not written.
#![tactic(auto, unfolding(rules::specs::Table::lock, rules::specs::Table::nomore, rules::specs::Table::count, rules::specs::Table::call, rules::specs::Table::phase, rules::specs::Table::wake, rules::specs::Table::entry, rules::specs::Table::base_at, rules::specs::Table::process_at, rules::specs::Table::words_at, rules::specs::Table::put_base, rules::specs::Table::put_marks, rules::specs::Table::put_process, rules::specs::Table::put_words))]

ghost use Rattle.std.specs.Prelude.{◌≡◌, ◌<◌, ◌-◌, ◌^◌, min, get_or, set};
ghost use Rattle.rules.specs.Table.{lock, nomore, count, call, phase, wake, entry, words_at, put_marks, put_words};
ghost use Rattle.words.specs.Place.{place};

use routine::Set;
use rules::Words;

// A word that each base or each process has: that of number 1 is word `first` of the table, and that of each next number `step` words on.
#[derive(Clone, Copy)]
struct Field {
    first: usize,
    step: usize,
}

const LOCK: Field = Field {
    first: 0,
    step: Set::BASE_WORDS,
};

const NOMORE: Field = Field {
    first: 1,
    step: Set::BASE_WORDS,
};

const COUNT: Field = Field {
    first: 2,
    step: Set::BASE_WORDS,
};

// Where the words of process 1 begin.
const PROCESSES: usize = Set::BASE_WORDS * Set::BASES;

const CALL: Field = Field {
    first: PROCESSES,
    step: Set::PROCESS_WORDS,
};

const PHASE: Field = Field {
    first: PROCESSES + 1,
    step: Set::PROCESS_WORDS,
};

const WAKE: Field = Field {
    first: PROCESSES + 2,
    step: Set::PROCESS_WORDS,
};

const ENTRY: Field = Field {
    first: PROCESSES + 3,
    step: Set::PROCESS_WORDS,
};

impl Field {
    // Where the word of number n stands, or, if that is past the machine's numbers, the largest of these, which no table reaches.
    fn place(self, n: usize) -> usize
        ensures { result ≡ min (place self n) (2 ^ 64 - 1) }
    {
        n.saturating_sub(1)
            .saturating_mul(self.step)
            .saturating_add(self.first)
    }

    fn of(self, table: &[u16], n: usize) -> u16
        ensures { result ≡ get_or table.now (place self n) 0 }
    {
        table.get(self.place(n)).copied().unwrap_or(0)
    }

    fn put(self, table: &mut [u16], n: usize, word: u16)
        ensures { table.new ≡ set table.old (place self n) word }
    {
        let i = self.place(n);
        // No get_mut: after it the proof knows the table's length only.
        if i < table.len() {
            table[i] = word;
        }
    }
}

// A word as a number: `usize::from` by a name that docs/CONTRACTS.md has.
pub fn wide(x: u16) -> usize
    ensures { (result ≡ x) × (result < 65536) }
{
    usize::from(x)
}

// The words by name, each a line over its field. Those that answer a usize promise that it is below 65,536, which the type does not say.

pub fn lock(table: &[u16], b: usize) -> u16
    ensures { result ≡ lock table.now b }
{
    LOCK.of(table, b)
}

pub fn nomore(table: &[u16], b: usize) -> u16
    ensures { result ≡ nomore table.now b }
{
    NOMORE.of(table, b)
}

pub fn count(table: &[u16], b: usize) -> u16
    ensures { result ≡ count table.now b }
{
    COUNT.of(table, b)
}

pub fn call(table: &[u16], p: usize) -> usize
    ensures { (result ≡ call table.now p) × (result < 65536) }
{
    usize::from(CALL.of(table, p))
}

pub fn phase(table: &[u16], p: usize) -> usize
    ensures { (result ≡ phase table.now p) × (result < 65536) }
{
    usize::from(PHASE.of(table, p))
}

pub fn wake(table: &[u16], p: usize) -> usize
    ensures { (result ≡ wake table.now p) × (result < 65536) }
{
    usize::from(WAKE.of(table, p))
}

pub fn entry(table: &[u16], p: usize) -> usize
    ensures { (result ≡ entry table.now p) × (result < 65536) }
{
    usize::from(ENTRY.of(table, p))
}

// The words of base b and of process p.
pub fn words_at(table: &[u16], b: usize, p: usize) -> Words
    ensures { result ≡ words_at table.now b p }
{
    Words {
        lock: LOCK.of(table, b),
        nomore: NOMORE.of(table, b),
        count: COUNT.of(table, b),
        call: CALL.of(table, p),
        phase: PHASE.of(table, p),
        wake: WAKE.of(table, p),
        entry: ENTRY.of(table, p),
    }
}

pub fn put_words(table: &mut [u16], b: usize, p: usize, w: Words)
    ensures { table.new ≡ put_words table.old b p w }
{
    LOCK.put(table, b, w.lock);
    NOMORE.put(table, b, w.nomore);
    COUNT.put(table, b, w.count);
    CALL.put(table, p, w.call);
    PHASE.put(table, p, w.phase);
    WAKE.put(table, p, w.wake);
    ENTRY.put(table, p, w.entry);
}

// WAKE and ENTRY of process p.
pub fn put_marks(table: &mut [u16], p: usize, wake: u16, entry: u16)
    ensures { table.new ≡ put_marks table.old p wake entry }
{
    WAKE.put(table, p, wake);
    ENTRY.put(table, p, entry);
}
