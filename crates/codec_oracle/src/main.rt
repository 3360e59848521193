// The program `codec` over a fixed list of lines; its answers are those of the Rust (tools/codec-list.py).
#![tactic(auto)]

fn main(rt: HostRuntime) {
    bench_codec::run(&rt);
}
