ghost use Rattle.std.specs.Prelude.{◌≡◌, ◌<◌};
ghost use Rattle.rules.specs.Consistent.{marks_allowed};
ghost use Rattle.rules.specs.Phase.{phase_number};

use rules::Phase;

// A table of tables (docs/FORMS.md). The marks that each phase allows: for each phase, then for each WAKE, whether ENTRY may be 0 and whether it may be 1.
const ALLOWED: [[[bool; 2]; 2]; 8] = [
    [[true, false], [false, false]], // 0, start
    [[true, false], [false, false]], // 1, to enlist
    [[false, true], [true, false]], // 2, second try
    [[false, true], [true, false]], // 3, to delist
    [[false, true], [true, false]], // 4, to set the switch
    [[false, true], [true, false]], // 5, waiting
    [[true, false], [false, false]], // 6, to notify
    [[true, false], [false, false]], // 7, stopped
];

// By way of the word: a second From would say the eight numbers again.
fn number(phase: Phase) -> usize
    ensures { (result ≡ phase_number phase) × (result < 8) }
{
    usize::from(u16::from(phase))
}

pub(crate) fn marks_allowed(phase: Phase, wake: usize, entry: usize) -> bool
    ensures { result ≡ marks_allowed (phase_number phase) wake entry }
{
    if 1 < wake || 1 < entry {
        return false;
    }
    ALLOWED[number(phase)][wake][entry]
}
