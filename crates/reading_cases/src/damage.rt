// The good sheet, damaged at every place.
use crate::build::{GOOD, TURNS, cuts, ended_cuts, turns};
use crate::verdict::report;
use reckoning::Count;
use std::io;

pub(crate) fn run(rt: &HostRuntime) -> io::Result<()> {
    println!(rt; "Damage at every place")?;
    report::<Count>(rt, "the good sheet", &GOOD)?;
    cuts(&GOOD, |place, words| {
        report::<Count>(rt, format_args!("cut at {place}"), words)
    })?;
    ended_cuts(rt.alloc(), &GOOD, |place, words| {
        report::<Count>(rt, format_args!("cut at {place} and ended"), words)
    })?;
    for (what, mask) in TURNS {
        turns(rt.alloc(), &GOOD, mask, |place, words| {
            report::<Count>(rt, format_args!("{what} turned at {place}"), words)
        })?;
    }
    Ok(())
}
