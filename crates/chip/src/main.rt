// The chip's end of the wire with a field of cards: lines from standard input, one line in, one line out.
#![tactic(auto)]

fn main(rt: HostRuntime) {
    chip_lines::run(&rt);
}
