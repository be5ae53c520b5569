// Answers the trials of `trials.bin`.
#![tactic(auto)]

fn main(rt: HostRuntime) -> std::io::Result<()> {
    trialing::run(&rt)
}
