// The frame and CRC library on its own, for goods-in: one line in, one line out.
#![tactic(auto)]

fn main(rt: HostRuntime) {
    bench_codec::run(&rt);
}
