// A door for tests from outside: trials in `trials.bin`, a line of text for each.
#![tactic(auto, using(text::specs::Text::puts_nothing), unfolding(rules::specs::Standing::standing_number, crate::specs::Trial::op_of, crate::specs::Trial::op_number, crate::specs::Trial::op_at, crate::specs::Trial::number, crate::specs::Trial::number_at, crate::specs::Trial::long_number, crate::specs::Trial::long_at, crate::specs::Trial::trial_at, crate::specs::Trial::loaded, crate::specs::Answers::table_text, crate::specs::Answers::said, crate::specs::Answers::did_text, crate::specs::Answers::call_said, crate::specs::Answers::call_table))]

mod answer;
mod stream;
mod trial;

pub use stream::run;
