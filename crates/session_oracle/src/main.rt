// The program `session` on a fixed list of lines, with the answers of the Rust driver.
#![tactic(auto)]

fn main(rt: HostRuntime) {
    bench_session::run(&rt);
}
