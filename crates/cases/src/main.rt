// The cases of the gate: queries and what is written for them, sets of texts and what every service answers, and books at their limits.
#![tactic(auto)]

use std::io;

mod list_cases; // list_cases.rt: every service on sets of texts
mod query_cases; // query_cases.rt: the query reader and writer on many texts

fn main(rt: HostRuntime) -> io::Result<()> {
    let mut out = io::writer(&rt);
    query_cases::run(&rt, &mut out)?;
    list_cases::run(&rt, &mut out)?;
    book_limits::run(&mut out)
}
