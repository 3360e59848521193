// The slowest call to plan for: a call's word and a number of idle reads from standard input, its longest run as a script out.
#![tactic(auto)]

fn main(rt: HostRuntime) {
    slowest_call::lines::run(&rt);
}
