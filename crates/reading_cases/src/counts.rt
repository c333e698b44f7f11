// The numbers of slots, of open slots and of cards: as they are, and as HEAD says them.
use crate::build::{GOOD, end_word, turned};
use crate::verdict::report;
use reckoning::Count;
use std::alloc::Global;
use std::{fmt, io};

// So many slots, open ones among them, and cards.
#[derive(Clone, Copy)]
struct Counts(u32, u32, u32);

impl fmt::Display for Counts {
    fn fmt<W: fmt::Write>(&self, f: &mut fmt::Formatter<W>) -> fmt::Result {
        let Counts(slots, open, cards) = *self;
        write!(f, "{slots} slots, {open} open, {cards} cards")
    }
}

impl Counts {
    // The HEAD word that says these.
    fn head(self) -> u32 {
        let Counts(slots, open, cards) = self;
        0x10000000 | cards << 16 | open << 8 | slots
    }
}

// A sheet whose slots have size 2, and whose cards are over no slot, with a HEAD that may say something else.
fn counted(alloc: Global, real: Counts, said: Counts) -> io::Result<Vec<u32>> {
    let Counts(slots, open, cards) = real;
    let mut words = vec![in alloc; said.head()]?;
    for before in 0..slots {
        let mark = if before < open { 0 } else { 1 };
        words.push(0x20020000 | mark << 8 | before + 1)?;
    }
    for _ in 0..cards {
        words.push(0x30000000)?;
    }
    let place = words.len();
    words.push(end_word(place))?;
    Ok(words)
}

// HEAD says what is there.
fn honest(rt: &HostRuntime) -> io::Result<()> {
    let cases = [
        Counts(0, 0, 0),
        Counts(12, 0, 0),
        Counts(13, 0, 0),
        Counts(12, 12, 0),
        Counts(0, 0, 24),
        Counts(0, 0, 25),
        Counts(12, 6, 24),
        Counts(12, 6, 25),
        Counts(13, 6, 24),
    ];
    for real in cases {
        let words = counted(rt.alloc(), real, real)?;
        report::<Count>(rt, real, &words)?;
    }
    Ok(())
}

// HEAD says something else.
fn mistaken(rt: &HostRuntime) -> io::Result<()> {
    let cases = [
        (Counts(12, 0, 0), Counts(11, 0, 0)),
        (Counts(12, 0, 0), Counts(13, 0, 0)),
        (Counts(11, 0, 0), Counts(12, 0, 0)),
        (Counts(12, 0, 0), Counts(255, 0, 0)),
        (Counts(12, 12, 0), Counts(12, 11, 0)),
        (Counts(12, 12, 0), Counts(12, 13, 0)),
        (Counts(12, 11, 0), Counts(12, 12, 0)),
        (Counts(12, 0, 0), Counts(12, 1, 0)),
        (Counts(12, 12, 0), Counts(12, 255, 0)),
        (Counts(0, 0, 24), Counts(0, 0, 23)),
        (Counts(0, 0, 24), Counts(0, 0, 25)),
        (Counts(0, 0, 23), Counts(0, 0, 24)),
        (Counts(0, 0, 24), Counts(0, 0, 255)),
    ];
    for (real, said) in cases {
        let words = counted(rt.alloc(), real, said)?;
        report::<Count>(rt, format_args!("{real}, and HEAD says {said}"), &words)?;
    }
    Ok(())
}

// Each bit of HEAD that has no field.
fn spare_bits(rt: &HostRuntime) -> io::Result<()> {
    for (bit, mask) in [
        (24, 0x0100_0000),
        (25, 0x0200_0000),
        (26, 0x0400_0000),
        (27, 0x0800_0000),
    ] {
        let words = turned(rt.alloc(), &GOOD, 0, mask)?;
        report::<Count>(rt, format_args!("HEAD with bit {bit} set"), &words)?;
    }
    Ok(())
}

pub(crate) fn run(rt: &HostRuntime) -> io::Result<()> {
    println!(rt; "Counts")?;
    honest(rt)?;
    mistaken(rt)?;
    spare_bits(rt)
}
