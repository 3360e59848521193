// The engine without a reader: calls and events from standard input, one line in, one line out.
#![tactic(auto)]

fn main(rt: HostRuntime) {
    bench_session::run(&rt);
}
