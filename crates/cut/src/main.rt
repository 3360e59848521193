// A fault script from standard input, cut down to its shortest end that still shows its fault.
#![tactic(auto)]

fn main(rt: HostRuntime) {
    cut_lines::run(&rt);
}
