ghost use Rattle.std.specs.Prelude.{◌≡◌};
ghost use Rattle.routine.specs.Refusal.{shown_of, none, shown};

// Why a call is refused, with the block, and the call place in it, that are shown.
#[derive(Clone, Copy, Debug, PartialEq, Eq)]
pub enum Refusal {
    // 1: the file's length.
    Length,
    // 2: a block's check.
    Check(usize),
    // 3: a block's fields.
    Fields(usize),
    // 4: a block's routine, at a call place.
    Routine { block: usize, place: usize },
    // 5: the table's length.
    Words,
    // 6: the table does not fit the file.
    Table,
    // 7: the process number.
    Process,
    // 8: the number of turns.
    Turns,
}

// What is shown of a refusal: its number, the block and the call place; zeros where nothing is refused. Any number may stand there: `Shown::new` takes them all.
#[derive(Clone, Copy, Debug, PartialEq, Eq)]
pub struct Shown {
    pub number: u8,
    pub block: usize,
    pub place: usize,
}

impl Shown {
    pub fn new(number: u8, block: usize, place: usize) -> Shown
        ensures { result ≡ shown_of number block place }
    {
        Shown {
            number,
            block,
            place,
        }
    }

    pub fn none() -> Shown
        ensures { result ≡ none }
    {
        Shown::new(0, 0, 0)
    }
}

impl From<Refusal> for Shown {
    ghost from_gives = { λ r s. s ≡ shown r };

    #[tactic(auto, unfolding(crate::specs::Refusal::shown))]
    fn from(refusal: Refusal) -> Shown {
        match refusal {
            Refusal::Length => Shown::new(1, 0, 0),
            Refusal::Check(block) => Shown::new(2, block, 0),
            Refusal::Fields(block) => Shown::new(3, block, 0),
            Refusal::Routine { block, place } => Shown::new(4, block, place),
            Refusal::Words => Shown::new(5, 0, 0),
            Refusal::Table => Shown::new(6, 0, 0),
            Refusal::Process => Shown::new(7, 0, 0),
            Refusal::Turns => Shown::new(8, 0, 0),
        }
    }
}
