#![tactic(auto, unfolding(routine::specs::Test::and, routine::specs::Judging::is_take, routine::specs::Kind::kind_number, rules::specs::Phase::phase_number, rules::specs::Turn::to_phase, rules::specs::Turn::completed, rules::specs::Turn::with_base, rules::specs::Turn::with_marks, rules::specs::Turn::succeeds, rules::specs::Turn::taken, rules::specs::Turn::take, rules::specs::Turn::release, rules::specs::Turn::lessen, rules::specs::Turn::begin, rules::specs::Turn::start, rules::specs::Turn::enlist, rules::specs::Turn::retry, rules::specs::Turn::delist, rules::specs::Turn::switch, rules::specs::Turn::next))]

ghost use Rattle.std.specs.Prelude.{◌≡◌, ◌≤◌};
ghost use Rattle.routine.specs.Limits.{most_processes, most_calls};
ghost use Rattle.routine.specs.Kind.{kind_number};
ghost use Rattle.rules.specs.Turn.{succeeds, taken, take, release, lessen, begin, start, enlist, retry, delist, switch, await, next, to_phase, completed};
ghost use Rattle.rules.specs.Phase.{phase_number};

use routine::Kind;
use routine::holds::{Mark, fine};
use rules::{Phase, Words};

// What a process looks at in its turn: the kind of the call at which it stands, the mark that its completed calls leave on that call's base, and the words of the base and its own.
#[derive(Clone, Copy)]
pub(crate) struct Turn {
    pub(crate) process: u16,
    pub(crate) kind: Kind,
    pub(crate) mark: Mark,
    pub(crate) words: Words,
    ghost few_readers: { words.count ≤ most_processes },
    ghost few_calls: { words.call ≤ most_calls },
}

fn to_phase(phase: Phase, words: Words) -> Words
    ensures { result ≡ to_phase (phase_number phase) words }
{
    Words {
        phase: u16::from(phase),
        ..words
    }
}

// The call is complete.
fn completed(words: Words) -> Words
    requires { words.call ≤ most_calls }
    ensures { result ≡ completed words }
{
    Words {
        call: words.call + 1,
        phase: u16::from(Phase::Start),
        ..words
    }
}

impl Turn {
    // What the turn leaves of the words, if it is not idle.
    pub(crate) fn next(self) -> Option<Words>
        ensures { result ≡ next self.process (kind_number self.kind) self.mark self.words }
    {
        match Phase::try_from(usize::from(self.words.phase)).ok()? {
            Phase::Start => Some(self.start()),
            Phase::Enlist => Some(self.enlist()),
            Phase::SecondTry => Some(self.retry()),
            Phase::Delist => Some(self.delist()),
            Phase::SetSwitch => Some(self.switch()),
            Phase::Waiting => self.await_wake(),
            Phase::Notify => Some(completed(self.words)),
            Phase::Stopped => None,
        }
    }

    // Whether a try succeeds.
    fn succeeds(self) -> bool
        ensures { result ≡ succeeds (kind_number self.kind) self.words }
    {
        let w = self.words;
        w.lock == 0
            && if self.kind == Kind::Modlock {
                w.count == 0
            } else {
                w.nomore == 0
            }
    }

    // What a try that succeeds leaves.
    fn taken(self) -> Words
        ensures { result ≡ taken self.process (kind_number self.kind) self.words }
    {
        let w = self.words;
        if self.kind == Kind::Modlock {
            return Words {
                lock: self.process,
                ..w
            };
        }
        Words {
            count: w.count + 1,
            ..w
        }
    }

    // Phase 0, modlock or readlock.
    fn take(self) -> Words
        ensures { result ≡ take self.process (kind_number self.kind) self.words }
    {
        if self.succeeds() {
            return completed(self.taken());
        }
        to_phase(Phase::Enlist, self.words)
    }

    // Phase 0, unlock.
    fn release(self) -> Words
        ensures { result ≡ release self.words }
    {
        let free = Words {
            lock: 0,
            nomore: 0,
            ..self.words
        };
        to_phase(Phase::Notify, free)
    }

    // Phase 0, decrease.
    fn lessen(self) -> Words
        ensures { result ≡ lessen self.words }
    {
        let w = self.words;
        if w.count <= 1 {
            let last = Words {
                nomore: 0,
                count: 0,
                ..w
            };
            return to_phase(Phase::Notify, last);
        }
        let fewer = Words {
            count: w.count - 1,
            ..w
        };
        completed(fewer)
    }

    // Phase 0, at a call that is no logic error.
    fn begin(self) -> Words
        ensures { result ≡ begin self.process (kind_number self.kind) self.words }
    {
        match self.kind {
            Kind::Modlock | Kind::Readlock => self.take(),
            Kind::Unlock => self.release(),
            Kind::Decrease => self.lessen(),
        }
    }

    // Phase 0: a logic error stops.
    fn start(self) -> Words
        ensures { start self.process (kind_number self.kind) self.mark self.words ≡ Some result }
    {
        if fine(usize::from(self.kind), self.mark) {
            return self.begin();
        }
        to_phase(Phase::Stopped, self.words)
    }

    // Phase 1.
    fn enlist(self) -> Words
        ensures { result ≡ enlist self.words }
    {
        let listed = Words {
            entry: 1,
            ..self.words
        };
        to_phase(Phase::SecondTry, listed)
    }

    // Phase 2: the second try.
    fn retry(self) -> Words
        ensures { result ≡ retry self.process (kind_number self.kind) self.words }
    {
        if self.succeeds() {
            return to_phase(Phase::Delist, self.taken());
        }
        if self.kind == Kind::Modlock {
            return to_phase(Phase::SetSwitch, self.words);
        }
        to_phase(Phase::Waiting, self.words)
    }

    // Phase 3.
    fn delist(self) -> Words
        ensures { result ≡ delist self.words }
    {
        let off = Words {
            wake: 0,
            entry: 0,
            ..self.words
        };
        completed(off)
    }

    // Phase 4: the switch is set.
    fn switch(self) -> Words
        ensures { result ≡ switch self.words }
    {
        let switched = Words {
            nomore: 1,
            ..self.words
        };
        to_phase(Phase::Waiting, switched)
    }

    // Phase 5: a woken process starts its call again, and another waits.
    fn await_wake(self) -> Option<Words>
        ensures { result ≡ await self.words }
    {
        if self.words.wake != 1 {
            return None;
        }
        let woken = Words {
            wake: 0,
            ..self.words
        };
        Some(to_phase(Phase::Start, woken))
    }
}
