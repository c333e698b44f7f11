// Lists the table that stands behind its sheet, as the program inspect does with the argument `table`.
#![tactic(auto)]

use listing::{Task, inspect};
use std::io;
use std::io::Read;

fn main(rt: HostRuntime) -> io::Result<()> {
    let mut bytes = Vec::new(rt.alloc());
    rt.stdin().read_to_end(&mut bytes)?;
    let text = inspect(rt.alloc(), Task::Table, &bytes)?;
    print!(rt; "{text}")
}
