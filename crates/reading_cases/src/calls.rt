// What a reader hands out, call by call: its items, nothing after the end, and a fault again and again.
use crate::build::{Edit, GOOD, cut, edited};
use crate::tables::{OPEN, TABLE};
use faults::Fault;
use reckoning::Count;
use sheet::{CardHead, Head, Item, Reader, ReaderFault, SheetReader, Slot, TableReader};
use std::{fmt, io};

fn write_row<W: fmt::Write>(
    f: &mut fmt::Formatter<W>,
    place: usize,
    values: &[u32],
    code: u64,
) -> fmt::Result {
    write!(f, "row at {place},")?;
    for value in values {
        write!(f, " {value:08x}")?;
    }
    write!(f, ", code {code}")
}

// An item as it is printed.
#[derive(Clone, Copy)]
struct Shown<'a>(Item<'a>);

impl fmt::Display for Shown<'_> {
    fn fmt<W: fmt::Write>(&self, f: &mut fmt::Formatter<W>) -> fmt::Result {
        match self.0 {
            Item::Head(Head { slots, open, cards }) => write!(
                f,
                "head, {slots} slots, {open} open, {cards} cards"
            ),
            Item::Slot(Slot { number, fold, size }) => write!(
                f,
                "slot {number}, mark {}, size {size}",
                u32::from(fold)
            ),
            Item::Card(CardHead { scope, rows }) => write!(
                f,
                "card, scope {scope:03x}, {rows} rows"
            ),
            Item::Row {
                place,
                values,
                code,
            } => write_row(f, place, values, code),
            Item::End { words } => write!(f, "end of {words} words"),
        }
    }
}

// Prints what one call answered.
fn show<F: Fault + Copy>(
    rt: &HostRuntime,
    call: u32,
    answer: Result<Option<Item<'_>>, F>,
) -> io::Result<()> {
    match answer {
        Ok(Some(item)) => println!(rt; "call {call}: {}", Shown(item)),
        Ok(None) => println!(rt; "call {call}: nothing"),
        Err(fault) => println!(rt; "call {call}: {}", fault.refusal()),
    }
}

// Calls a reader so many times.
fn calls<F: ReaderFault>(
    rt: &HostRuntime,
    label: &str,
    mut reader: Reader<'_, Count, F>,
    times: u32,
) -> io::Result<()> {
    println!(rt; "{label}")?;
    for call in 0..times {
        show(rt, call, reader.next())?;
    }
    Ok(())
}

fn sheets(rt: &HostRuntime) -> io::Result<()> {
    calls(rt, "the good sheet", SheetReader::new(&GOOD), 12)?;
    calls(rt, "a sheet of no word", SheetReader::new(&[]), 3)?;
    let zero = edited(rt.alloc(), &GOOD, &[Edit(7, 0x60000000)])?;
    calls(rt, "a row of weight zero", SheetReader::new(&zero), 7)?;
    let longer = edited(rt.alloc(), &GOOD, &[Edit(21, 0x00000000)])?;
    calls(rt, "a word after END", SheetReader::new(&longer), 12)
}

fn tables(rt: &HostRuntime) -> io::Result<()> {
    calls(rt, "the good table", TableReader::new(&OPEN, &TABLE), 7)?;
    calls(
        rt,
        "the good table beside a sheet with a fault",
        TableReader::new(cut(&OPEN, 3), &TABLE),
        3,
    )?;
    let repeated = edited(
        rt.alloc(),
        &TABLE,
        &[Edit(9, 0x40000001), Edit(10, 0x40000000)],
    )?;
    calls(
        rt,
        "a table with a row repeated",
        TableReader::new(&OPEN, &repeated),
        6,
    )?;
    let longer = edited(rt.alloc(), &TABLE, &[Edit(14, 0x00000000)])?;
    calls(
        rt,
        "a table with a word after END",
        TableReader::new(&OPEN, &longer),
        7,
    )
}

pub(crate) fn run(rt: &HostRuntime) -> io::Result<()> {
    println!(rt; "Calls")?;
    sheets(rt)?;
    tables(rt)
}
