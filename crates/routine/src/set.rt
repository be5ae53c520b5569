ghost use Rattle.std.specs.Prelude.{◌≡◌};
ghost use Rattle.routine.specs.Limits.{limits, set_of};

// What a good routine file is about: N processes that share B bases.
#[derive(Clone, Copy, Debug, PartialEq, Eq)]
pub struct Set {
    pub processes: usize,
    pub bases: usize,
}

// The limits of a set as a value, each field the constant of the same name.
#[derive(Clone, Copy, Debug, PartialEq, Eq)]
pub struct Limits {
    pub processes: usize,
    pub bases: usize,
    pub calls: usize,
    pub words: usize,
    pub turns: usize,
    pub block: usize,
    pub head: usize,
    pub checked: usize,
}

impl Set {
    pub const PROCESSES: usize = 8;

    pub const BASES: usize = 16;

    // Calls in a routine.
    pub const CALLS: usize = 32;

    pub const BASE_WORDS: usize = 3;

    pub const PROCESS_WORDS: usize = 4;

    // Words of state: first those of the bases, then those of the processes.
    pub const WORDS: usize = Self::BASE_WORDS * Self::BASES + Self::PROCESS_WORDS * Self::PROCESSES;

    // Turns in one play.
    pub const TURNS: usize = 4096;

    // Bytes of a block: its head, its calls of two bytes each, zeros; the check follows the bytes that it covers.
    pub const BLOCK: usize = 512;

    pub const HEAD: usize = 4;

    pub const CHECKED: usize = 508;

    pub fn new(processes: usize, bases: usize) -> Set
        ensures { result ≡ set_of processes bases }
    {
        Set { processes, bases }
    }

    // Ties the constants to the specification's limits.
    pub fn limits() -> Limits
        ensures { result ≡ limits }
    {
        Limits {
            processes: Set::PROCESSES,
            bases: Set::BASES,
            calls: Set::CALLS,
            words: Set::WORDS,
            turns: Set::TURNS,
            block: Set::BLOCK,
            head: Set::HEAD,
            checked: Set::CHECKED,
        }
    }
}
