// The rules of slots, cards, rows and END, each broken, and what comes close to breaking one and does not.
use crate::build::{Case, Edit, GOOD, SMALL, cut, each_case, edited, end_word};
use crate::verdict::report;
use reckoning::{Cost, Count, Possible, Reckoning};
use std::alloc::Global;
use std::io;

const SLOTS: [Case; 6] = [
    Case("a slot twice", &[Edit(2, 0x20020101)]),
    Case("slot number 0", &[Edit(1, 0x20020200)]),
    Case("slot number 13", &[Edit(1, 0x2002020d)]),
    Case(
        "an open slot and a bound one",
        &[Edit(0, 0x10010102), Edit(1, 0x20020001)],
    ),
    Case("an open slot after a bound one", &[Edit(2, 0x20020002)]),
    Case(
        "a bound slot among the open ones",
        &[Edit(0, 0x10010202), Edit(1, 0x20020001)],
    ),
];

const CARDS: [Case; 6] = [
    Case(
        "a card over a slot that is not there",
        &[Edit(3, 0x30004007)],
    ),
    Case(
        "a card over slot 12, which is not there",
        &[Edit(3, 0x30004803)],
    ),
    Case("a row count too large", &[Edit(3, 0x30005003)]),
    Case("a row count too small", &[Edit(3, 0x30003003)]),
    Case("a row count of 0", &[Edit(3, 0x30000003)]),
    Case("a row count of 65535", &[Edit(3, 0x3ffff003)]),
];

const ROWS: [Case; 9] = [
    Case("a row repeated", &[Edit(9, 0x40000000)]),
    Case(
        "the first two rows exchanged",
        &[
            Edit(5, 0x40000001),
            Edit(7, 0x60000001),
            Edit(9, 0x40000000),
            Edit(11, 0x60000003),
        ],
    ),
    Case(
        "the middle rows exchanged",
        &[
            Edit(8, 0x40000001),
            Edit(9, 0x40000000),
            Edit(11, 0x60000002),
            Edit(12, 0x40000000),
            Edit(13, 0x40000001),
            Edit(15, 0x60000001),
        ],
    ),
    Case("a value out of range", &[Edit(8, 0x40000002)]),
    Case("a value of 2^28 - 1", &[Edit(13, 0x4fffffff)]),
    Case(
        "a row out of order, and its HIGH of another kind",
        &[Edit(9, 0x40000000), Edit(10, 0x60000000)],
    ),
    Case(
        "a row out of order, and its code zero",
        &[Edit(9, 0x40000000), Edit(11, 0x60000000)],
    ),
    Case(
        "a row out of order, and a value of it out of range",
        &[Edit(16, 0x40000000), Edit(17, 0x40000002)],
    ),
    Case(
        "HIGH and LOW exchanged",
        &[Edit(6, 0x60000003), Edit(7, 0x50000000)],
    ),
];

const ENDS: [Case; 6] = [
    Case("a word after END", &[Edit(21, 0x00000000)]),
    Case("END twice", &[Edit(21, 0x70000014)]),
    Case("END again, with its own place", &[Edit(21, 0x70000015)]),
    Case(
        "three words after END",
        &[
            Edit(21, 0xffffffff),
            Edit(22, 0x10000000),
            Edit(23, 0x70000017),
        ],
    ),
    Case(
        "a word after an END that counts it",
        &[Edit(20, 0x70000015), Edit(21, 0x00000000)],
    ),
    Case("END of load 2^28 - 1", &[Edit(20, 0x7fffffff)]),
];

// The code of the one row of the small sheet.
const CODES: [Case; 8] = [
    Case("code 0", &[Edit(5, 0x60000000)]),
    Case("code 1", &[]),
    Case("code 2", &[Edit(5, 0x60000002)]),
    Case("code 2^28 - 1", &[Edit(5, 0x6fffffff)]),
    Case("code 2^28", &[Edit(4, 0x50000001), Edit(5, 0x60000000)]),
    Case("code 2^28 + 1", &[Edit(4, 0x50000001)]),
    Case("code 2^56 - 2", &[Edit(4, 0x5fffffff), Edit(5, 0x6ffffffe)]),
    Case("code 2^56 - 1", &[Edit(4, 0x5fffffff), Edit(5, 0x6fffffff)]),
];

// The good sheet with each of the cases' changes, in the reckoning Count.
fn changes(rt: &HostRuntime, cases: &[Case<'_>]) -> io::Result<()> {
    each_case(rt.alloc(), &GOOD, cases, |label, words| {
        report::<Count>(rt, label, words)
    })
}

// The small sheet with each code.
fn codes<R: Reckoning>(rt: &HostRuntime, name: &str) -> io::Result<()> {
    each_case(rt.alloc(), &SMALL, &CODES, |code, words| {
        report::<R>(rt, format_args!("{name}, {code}"), words)
    })
}

// The small sheet with each mark, its slot bound or open.
fn marks<R: Reckoning>(rt: &HostRuntime, name: &str) -> io::Result<()> {
    for (kind, head) in [("bound", 0x10010001), ("open", 0x10010101)] {
        for mark in [0, 1, 2, 3, 14, 15, 16, 255] {
            let edits = [Edit(0, head), Edit(1, 0x20020001 | mark << 8)];
            let words = edited(rt.alloc(), &SMALL, &edits)?;
            report::<R>(
                rt,
                format_args!("{name}, {kind} slot of mark {mark}"),
                &words,
            )?;
        }
    }
    Ok(())
}

// Cards over no slot.
fn slotless(rt: &HostRuntime) -> io::Result<()> {
    report::<Count>(
        rt,
        "a card over no slot with no row",
        &[0x10010000, 0x30000000, 0x70000002],
    )?;
    let one = [0x10010000, 0x30001000, 0x50000000, 0x60000001, 0x70000004];
    report::<Count>(rt, "a card over no slot with one row", &one)?;
    let two = [
        0x10010000, 0x30002000, 0x50000000, 0x60000001, 0x50000000, 0x60000002, 0x70000006,
    ];
    report::<Count>(rt, "a card over no slot with two rows", &two)
}

// The words end in a row out of order: its order is tested before its HIGH, and after its values.
fn unended(rt: &HostRuntime) -> io::Result<()> {
    let words = edited(rt.alloc(), &GOOD, &[Edit(9, 0x40000000)])?;
    report::<Count>(rt, "a row out of order, and no HIGH", cut(&words, 10))?;
    report::<Count>(
        rt,
        "a row out of order, and a value missing",
        cut(&words, 9),
    )
}

// The rows of each card have an order of their own.
fn two_cards(rt: &HostRuntime) -> io::Result<()> {
    let more = [
        Edit(0, 0x10020001),
        Edit(6, 0x30001001),
        Edit(7, 0x40000000),
        Edit(8, 0x50000000),
        Edit(9, 0x60000001),
        Edit(10, 0x7000000a),
    ];
    let words = edited(rt.alloc(), &SMALL, &more)?;
    report::<Count>(rt, "two cards over one slot", &words)
}

// Slot 5 stands before slot 2, and the values of a row follow the slot numbers.
fn crossed(rt: &HostRuntime) -> io::Result<()> {
    let words = [
        0x10010102, 0x20030005, 0x20020102, 0x30001012, 0x40000001, 0x40000002, 0x50000001,
        0x60000000, 0x70000008,
    ];
    report::<Count>(rt, "slot 5 before slot 2", &words)?;
    let exchanged = edited(
        rt.alloc(),
        &words,
        &[Edit(4, 0x40000002), Edit(5, 0x40000001)],
    )?;
    report::<Count>(
        rt,
        "slot 5 before slot 2, and values in running order",
        &exchanged,
    )
}

// A sheet of 12 slots, and a card over all of them with two rows. The rows have the value 0 but for slot 12.
fn wide(alloc: Global, first: u32, second: u32) -> io::Result<Vec<u32>> {
    let mut words = vec![in alloc; 0x1001000c]?;
    for number in 1..=12 {
        words.push(0x20020100 + number)?;
    }
    words.push(0x30002fff)?;
    for last in [first, second] {
        words.extend_from_slice(&[0x40000000; 11])?;
        words.extend_from_slice(&[last, 0x50000000, 0x60000001])?;
    }
    let place = words.len();
    words.push(end_word(place))?;
    Ok(words)
}

// Rows of 12 values that differ in the last.
fn twelve(rt: &HostRuntime) -> io::Result<()> {
    for (label, first, second) in [
        ("12 values, the last rises", 0x40000000, 0x40000001),
        ("12 values, the last falls", 0x40000001, 0x40000000),
        ("12 values, the last is repeated", 0x40000000, 0x40000000),
        (
            "12 values, the last is out of range",
            0x40000000,
            0x40000002,
        ),
        ("11 values where 12 are due", 0x40000000, 0x50000000),
    ] {
        let words = wide(rt.alloc(), first, second)?;
        report::<Count>(rt, label, &words)?;
    }
    Ok(())
}

pub(crate) fn run(rt: &HostRuntime) -> io::Result<()> {
    println!(rt; "Rules")?;
    changes(rt, &SLOTS)?;
    changes(rt, &CARDS)?;
    changes(rt, &ROWS)?;
    changes(rt, &ENDS)?;
    slotless(rt)?;
    unended(rt)?;
    two_cards(rt)?;
    crossed(rt)?;
    twelve(rt)?;
    codes::<Possible>(rt, "possible")?;
    codes::<Count>(rt, "count")?;
    codes::<Cost>(rt, "cost")?;
    marks::<Possible>(rt, "possible")?;
    marks::<Count>(rt, "count")?;
    marks::<Cost>(rt, "cost")
}
