// Who is at the gate: rounds of discovery from standard input, one line in, one line out.
#![tactic(auto)]

fn main(rt: HostRuntime) {
    presence_lines::run(&rt);
}
