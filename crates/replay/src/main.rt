// The original's answers held against ours. Standard input is the list that `oracle record` writes.
#![tactic(auto)]

mod answers;
mod cases;
mod report;

use std::io;

fn main(rt: HostRuntime) -> io::Result<()> {
    let mut counts = report::Counts::default();
    for _ in 0..cases::number_of_cases(&rt) {
        counts.add(&rt, cases::replayed(&rt))?;
    }
    println!(rt; "in all {counts}")
}
