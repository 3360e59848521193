// The program `session` on Type A's discovery with UID and ATS told apart, with the answers of the Rust driver and the mode's rule.
#![tactic(auto)]

fn main(rt: HostRuntime) {
    bench_session::run(&rt);
}
