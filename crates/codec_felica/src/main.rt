// Requests and replies of FeliCa blocks through the program `codec`, as tools/felica-reference.py works them out.
#![tactic(auto)]

fn main(rt: HostRuntime) {
    bench_codec::run(&rt);
}
