// Plays `set.bin` with `turns.bin`.
#![tactic(auto)]

fn main(rt: HostRuntime) -> std::io::Result<()> {
    playing::run(&rt)
}
