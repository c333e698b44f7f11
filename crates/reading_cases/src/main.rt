// Sheets and tables, whole and damaged, and what the readers answer to them: one line for each case.
#![tactic(auto)]

mod build;
mod calls;
mod counts;
mod damage;
mod rules;
mod sizes;
mod tables;
mod verdict;

use std::io;

fn main(rt: HostRuntime) -> io::Result<()> {
    sizes::run(&rt)?;
    counts::run(&rt)?;
    damage::run(&rt)?;
    rules::run(&rt)?;
    tables::run(&rt)?;
    calls::run(&rt)
}
