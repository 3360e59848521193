// The program `codec` over the standards' vectors and document 01's edges; its answers were written by hand from those papers.
#![tactic(auto)]

fn main(rt: HostRuntime) {
    bench_codec::run(&rt);
}
