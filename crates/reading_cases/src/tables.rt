// Tables beside their sheets.
use crate::build::{Case, Edit, GOOD, TURNS, cut, cuts, each_case, edited, ended_cuts, turns};
use crate::verdict::{report_same, report_table};
use reckoning::{Cost, Count, Possible};
use std::io;

// A sheet with open slots, whole in every reckoning.
pub const OPEN: [u32; 6] = [
    0x10010203, // HEAD: 3 slots, 2 open, 1 card
    0x20030005, // SLOT 5: open, size 3
    0x20020002, // SLOT 2: open, size 2
    0x20020101, // SLOT 1: mark 1, size 2
    0x30000001, // CARD over slot 1, with no row
    0x70000005, // END: 5 words in front
];

// A table of that sheet, whole in Count and Cost.
pub const TABLE: [u32; 14] = [
    0x30003012, // CARD over slots 2 and 5, with 3 rows
    0x40000000, 0x40000002, 0x50000000, 0x60000001, // (0, 2): 1
    0x40000001, 0x40000000, 0x50000000, 0x60000002, // (1, 0): 2
    0x40000001, 0x40000002, 0x50000001, 0x60000000, // (1, 2): 2^28
    0x7000000d, // END: 13 words in front
];

const CHANGES: [Case; 15] = [
    Case("the good table", &[]),
    Case("an open slot left out", &[Edit(0, 0x30003010)]),
    Case("a bound slot added", &[Edit(0, 0x30003013)]),
    Case("a slot added that is not there", &[Edit(0, 0x30003812)]),
    Case("other slots", &[Edit(0, 0x30003009)]),
    Case("no slot", &[Edit(0, 0x30001000)]),
    Case("a row count too large", &[Edit(0, 0x30004012)]),
    Case("a row count too small", &[Edit(0, 0x30002012)]),
    Case(
        "a row repeated",
        &[Edit(9, 0x40000001), Edit(10, 0x40000000)],
    ),
    Case("a value out of range", &[Edit(1, 0x40000002)]),
    Case("a row of weight zero", &[Edit(4, 0x60000000)]),
    Case("END with a wrong load", &[Edit(13, 0x7000000e)]),
    Case("a word after END", &[Edit(14, 0x00000000)]),
    Case(
        "a word after a wrong END",
        &[Edit(13, 0x7000000e), Edit(14, 0x00000000)],
    ),
    Case("HEAD for CARD", &[Edit(0, 0x10010203)]),
];

// Faults of the sheet, beside which the table is not looked at.
const SHEETS: [Case; 6] = [
    Case("END for HEAD in the sheet", &[Edit(0, 0x70000000)]),
    Case("an open slot twice in the sheet", &[Edit(2, 0x20020005)]),
    Case(
        "a card of the sheet over a slot that is not there",
        &[Edit(4, 0x30000004)],
    ),
    Case(
        "a card of the sheet with a row too few",
        &[Edit(4, 0x30001001)],
    ),
    Case("END of the sheet with a wrong load", &[Edit(5, 0x70000006)]),
    Case("a word after END of the sheet", &[Edit(6, 0x70000006)]),
];

fn changes(rt: &HostRuntime) -> io::Result<()> {
    each_case(rt.alloc(), &TABLE, &CHANGES, |label, table| {
        report_table::<Count>(rt, label, &OPEN, table)
    })
}

// A good table, and one of no words, beside sheets with a fault.
fn beside_faults(rt: &HostRuntime) -> io::Result<()> {
    each_case(rt.alloc(), &OPEN, &SHEETS, |fault, sheet| {
        report_table::<Count>(rt, fault, sheet, &TABLE)?;
        report_table::<Count>(rt, format_args!("{fault}, and no table"), sheet, &[])
    })?;
    report_table::<Count>(rt, "the sheet cut at 3", cut(&OPEN, 3), &TABLE)
}

// The good table, damaged at every place.
fn damage(rt: &HostRuntime) -> io::Result<()> {
    cuts(&TABLE, |place, table| {
        report_table::<Count>(rt, format_args!("table cut at {place}"), &OPEN, table)
    })?;
    ended_cuts(rt.alloc(), &TABLE, |place, table| {
        report_table::<Count>(
            rt,
            format_args!("table cut at {place} and ended"),
            &OPEN,
            table,
        )
    })?;
    for (what, mask) in TURNS {
        turns(rt.alloc(), &TABLE, mask, |place, table| {
            let label = format_args!("{what} turned at {place} of the table");
            report_table::<Count>(rt, label, &OPEN, table)
        })?;
    }
    Ok(())
}

// What differs from reckoning to reckoning.
fn reckonings(rt: &HostRuntime) -> io::Result<()> {
    report_table::<Possible>(rt, "possible, the good table", &OPEN, &TABLE)?;
    report_table::<Count>(rt, "count, the good table", &OPEN, &TABLE)?;
    report_table::<Cost>(rt, "cost, the good table", &OPEN, &TABLE)?;
    let none = [0x30000012, 0x70000001];
    report_table::<Possible>(rt, "possible, no row", &OPEN, &none)?;
    report_table::<Count>(rt, "count, no row", &OPEN, &none)?;
    report_table::<Cost>(rt, "cost, no row", &OPEN, &none)?;
    let dear = edited(
        rt.alloc(),
        &TABLE,
        &[Edit(11, 0x5fffffff), Edit(12, 0x6fffffff)],
    )?;
    report_table::<Count>(rt, "count, code 2^56 - 1", &OPEN, &dear)?;
    report_table::<Cost>(rt, "cost, code 2^56 - 1", &OPEN, &dear)?;
    let free = edited(rt.alloc(), &TABLE, &[Edit(8, 0x60000000)])?;
    report_table::<Count>(rt, "count, code 0", &OPEN, &free)?;
    report_table::<Cost>(rt, "cost, code 0", &OPEN, &free)?;
    report_table::<Cost>(rt, "cost, a sheet with mark 2", &GOOD, &none)
}

// Tables beside the good sheet, which has no open slot.
fn slotless(rt: &HostRuntime) -> io::Result<()> {
    let one = [0x30001000, 0x50000000, 0x60000006, 0x70000003];
    report_table::<Count>(rt, "no open slot, one row", &GOOD, &one)?;
    report_table::<Count>(rt, "no open slot, no row", &GOOD, &[0x30000000, 0x70000001])?;
    let two = edited(rt.alloc(), &one, &[Edit(0, 0x30002000)])?;
    report_table::<Count>(rt, "no open slot, two rows", &GOOD, &two)?;
    let bound = [0x30001001, 0x40000000, 0x50000000, 0x60000006, 0x70000004];
    report_table::<Count>(rt, "no open slot, a card over slot 1", &GOOD, &bound)?;
    report_table::<Count>(rt, "no open slot, cut before END", &GOOD, cut(&one, 3))?;
    let wrong = edited(rt.alloc(), &one, &[Edit(3, 0x70000004)])?;
    report_table::<Count>(rt, "no open slot, END with a wrong load", &GOOD, &wrong)
}

// Two tables, compared.
fn compared(rt: &HostRuntime) -> io::Result<()> {
    let none = [0x30000012, 0x70000001];
    let other = edited(rt.alloc(), &TABLE, &[Edit(12, 0x60000001)])?;
    let moved = edited(rt.alloc(), &TABLE, &[Edit(6, 0x40000001)])?;
    let faulty = edited(rt.alloc(), &TABLE, &[Edit(4, 0x60000000)])?;
    let unread = cut(&TABLE, 9);
    report_same::<Count>(rt, "a table and itself", &OPEN, &TABLE, &TABLE)?;
    report_same::<Count>(rt, "two tables of no row", &OPEN, &none, &none)?;
    report_same::<Count>(rt, "another code", &OPEN, &TABLE, &other)?;
    report_same::<Count>(rt, "another value", &OPEN, &moved, &TABLE)?;
    report_same::<Count>(rt, "no row on the left", &OPEN, &none, &TABLE)?;
    report_same::<Count>(rt, "no row on the right", &OPEN, &TABLE, &none)?;
    report_same::<Count>(rt, "a fault on the left", &OPEN, &faulty, &TABLE)?;
    report_same::<Count>(rt, "a fault on the right", &OPEN, &TABLE, &faulty)?;
    report_same::<Count>(rt, "a fault on both sides", &OPEN, unread, &faulty)?;
    report_same::<Count>(rt, "the same fault on both sides", &OPEN, unread, unread)?;
    report_same::<Count>(
        rt,
        "a fault in the sheet too",
        cut(&OPEN, 3),
        unread,
        &TABLE,
    )
}

pub(crate) fn run(rt: &HostRuntime) -> io::Result<()> {
    println!(rt; "Tables")?;
    changes(rt)?;
    beside_faults(rt)?;
    damage(rt)?;
    reckonings(rt)?;
    slotless(rt)?;
    compared(rt)
}
