// Lists what a sheet holds, item by item, or says where it is damaged and which layer found it.
#![tactic(auto)]

use listing::{Task, inspect};
use std::io::Read;
use std::{env, io};

fn main(rt: HostRuntime) -> io::Result<()> {
    let mut bytes = Vec::new(rt.alloc());
    rt.stdin().read_to_end(&mut bytes)?;
    let Some(task) = asked_task(&rt)? else {
        return println!(rt; "unknown");
    };
    let text = inspect(rt.alloc(), task, &bytes)?;
    print!(rt; "{text}")
}

// No argument asks for the sheet, and `table` alone for the table beside it.
fn asked_task(rt: &HostRuntime) -> io::Result<Option<Task>> {
    let mut arguments = env::args(rt)?;
    let _program = arguments.next();
    let Some(first) = arguments.next() else {
        return Ok(Some(Task::Sheet));
    };
    if first.as_str() == "table" && arguments.next().is_none() {
        Ok(Some(Task::Table))
    } else {
        Ok(None)
    }
}
