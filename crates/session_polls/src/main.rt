// The program `session` on lists of system codes, with the answers of the Rust driver.
#![tactic(auto)]

fn main(rt: HostRuntime) {
    bench_session::run(&rt);
}
