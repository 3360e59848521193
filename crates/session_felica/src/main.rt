// Read and Write Without Encryption through the program `session`, as tools/felica-reference.py works them out.
#![tactic(auto)]

fn main(rt: HostRuntime) {
    bench_session::run(&rt);
}
