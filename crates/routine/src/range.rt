ghost use Rattle.std.specs.Prelude.{◌≡◌};
ghost use Rattle.routine.specs.Test.{within};

// Whether v is low to high. By this name a rule reads, and is proved, as its definition is.
#[tactic(auto, unfolding(crate::specs::Test::within, crate::specs::Test::and))]
pub fn within(low: usize, high: usize, v: usize) -> bool
    ensures { result ≡ within low high v }
{
    (low..=high).contains(&v)
}
