// A reader and a chip with cards in its field, on one line after the other from standard input.
#![tactic(auto)]

fn main(rt: HostRuntime) {
    simulator_lines::run(&rt);
}
