// The slowest call (document 02, N13): for each kind of call that orders frames and a number of idle reads, the longest run as a script
// of the program `session`.
#![tactic(auto)]

pub mod lines;
pub mod script;
mod table;
