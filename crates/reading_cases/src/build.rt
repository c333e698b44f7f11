// The words of the cases: bases, and changes of a base.
use std::alloc::{AllocError, Global};
use std::io;
use words::{Kind, make_word};

// The sheet that most cases change, in the reckoning Count.
pub const GOOD: [u32; 21] = [
    0x10010002, // HEAD: 2 slots, none open, 1 card
    0x20020201, // SLOT 1: most, size 2
    0x20020102, // SLOT 2: total, size 2
    0x30004003, // CARD over slots 1 and 2, with 4 rows
    0x40000000, 0x40000000, 0x50000000, 0x60000003, // (0, 0): 3
    0x40000000, 0x40000001, 0x50000000, 0x60000001, // (0, 1): 1
    0x40000001, 0x40000000, 0x50000000, 0x60000002, // (1, 0): 2
    0x40000001, 0x40000001, 0x50000000, 0x60000004, // (1, 1): 4
    0x70000014, // END: 20 words in front
];

// A sheet of one slot, whole in every reckoning.
pub const SMALL: [u32; 7] = [
    0x10010001, // HEAD: 1 slot, not open, 1 card
    0x20020101, // SLOT 1: mark 1, size 2
    0x30001001, // CARD over slot 1, with 1 row
    0x40000001, 0x50000000, 0x60000001, // (1): 1
    0x70000006, // END: 6 words in front
];

// What is turned in a word, and its bits.
pub const TURNS: [(&str, u32); 3] = [
    ("kind", 0x1000_0000),
    ("lowest bit", 1),
    ("highest bit", 0x0800_0000),
];

// A word that takes the place of the one there. Behind the last word it is added.
#[derive(Clone, Copy)]
pub struct Edit(pub usize, pub u32);

// A case by its label, and what it changes in its base.
pub struct Case<'a>(pub &'a str, pub &'a [Edit]);

// The END word that stands at `place`.
pub(crate) fn end_word(place: usize) -> u32 {
    make_word(Kind::End, (place % 0x1000_0000) as u32)
}

// The first `count` words of a base.
pub(crate) fn cut(base: &[u32], count: usize) -> &[u32] {
    &base[..count.min(base.len())]
}

// The first `count` words of a base, and END.
pub(crate) fn cut_and_ended(alloc: Global, base: &[u32], count: usize) -> io::Result<Vec<u32>> {
    let mut words = cut(base, count).to_vec(alloc)?;
    words.push(end_word(count))?;
    Ok(words)
}

// The base with the bits of `mask` turned in the word at `place`.
pub(crate) fn turned(
    alloc: Global,
    base: &[u32],
    place: usize,
    mask: u32,
) -> Result<Vec<u32>, AllocError> {
    let mut words = base.to_vec(alloc)?;
    if let Some(word) = words.get_mut(place) {
        *word ^= mask;
    }
    Ok(words)
}

// The base with the edits made, one after the other.
pub(crate) fn edited(alloc: Global, base: &[u32], edits: &[Edit]) -> io::Result<Vec<u32>> {
    let mut words = base.to_vec(alloc)?;
    for Edit(place, word) in edits {
        match words.get_mut(*place) {
            Some(there) => *there = *word,
            None => words.push(*word)?,
        }
    }
    Ok(words)
}

// Hands on the base with the edits of each case, by its label.
pub(crate) fn each_case<F: FnMut(&str, &[u32]) -> io::Result<()>>(
    alloc: Global,
    base: &[u32],
    cases: &[Case<'_>],
    mut show: F,
) -> io::Result<()>
    requires { F.IsAlwaysCallable show }
{
    for Case(label, edits) in cases {
        let words = edited(alloc, base, edits)?;
        show(label, &words)?;
    }
    Ok(())
}

// Hands on the base cut at each place.
pub(crate) fn cuts<F: FnMut(usize, &[u32]) -> io::Result<()>>(
    base: &[u32],
    mut show: F,
) -> io::Result<()>
    requires { F.IsAlwaysCallable show }
{
    for place in 0..base.len() {
        show(place, cut(base, place))?;
    }
    Ok(())
}

// Hands on the base cut at each place and ended there.
pub(crate) fn ended_cuts<F: FnMut(usize, &[u32]) -> io::Result<()>>(
    alloc: Global,
    base: &[u32],
    mut show: F,
) -> io::Result<()>
    requires { F.IsAlwaysCallable show }
{
    for place in 0..base.len() {
        let words = cut_and_ended(alloc, base, place)?;
        show(place, &words)?;
    }
    Ok(())
}

// Hands on the base with the bits of `mask` turned in one word, at each place.
pub(crate) fn turns<F: FnMut(usize, &[u32]) -> io::Result<()>>(
    alloc: Global,
    base: &[u32],
    mask: u32,
    mut show: F,
) -> io::Result<()>
    requires { F.IsAlwaysCallable show }
{
    for place in 0..base.len() {
        let words = turned(alloc, base, place, mask)?;
        show(place, &words)?;
    }
    Ok(())
}
