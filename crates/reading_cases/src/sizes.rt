// The size of a slot, and its values.
use crate::build::{Edit, SMALL, edited};
use crate::verdict::report;
use reckoning::Count;
use std::io;

// A bound slot and no card.
fn alone(rt: &HostRuntime) -> io::Result<()> {
    for size in [0, 1, 2, 255, 256, 257, 512, 4095] {
        let words = [0x10000001, 0x20000101 | size << 16, 0x70000002];
        report::<Count>(rt, format_args!("size {size}"), &words)?;
    }
    Ok(())
}

// A bound slot, and a card with a row of this value.
fn with_value(rt: &HostRuntime) -> io::Result<()> {
    for (size, value) in [(1, 0), (1, 1), (2, 1), (2, 2), (256, 255), (256, 256)] {
        let edits = [
            Edit(1, 0x20000101 | size << 16),
            Edit(3, 0x40000000 | value),
        ];
        let words = edited(rt.alloc(), &SMALL, &edits)?;
        report::<Count>(rt, format_args!("size {size}, value {value}"), &words)?;
    }
    Ok(())
}

pub(crate) fn run(rt: &HostRuntime) -> io::Result<()> {
    println!(rt; "Sizes")?;
    alone(rt)?;
    with_value(rt)
}
