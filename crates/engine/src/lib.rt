// The RC-S956 reader engine: a call or an event goes in, an order, an answer or a refusal comes out.
#![tactic(auto)]

pub mod books;
pub mod by_number;
pub mod call;
mod reply;
pub mod running;
pub mod session;
pub mod state;
