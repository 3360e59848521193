// The program `session` on the edges of packets with extra zeros, with the answers of the Rust driver.
#![tactic(auto)]

fn main(rt: HostRuntime) {
    bench_session::run(&rt);
}
