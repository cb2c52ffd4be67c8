// The program. The check runs it on P2 of docs/RULES.md.
#![tactic(auto)]

fn main(rt: HostRuntime) {
    wave_pipe::run(&rt);
}
