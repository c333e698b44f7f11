// What reading a sheet or a table came to, and the line that says so.
use faults::Fault;
use reckoning::Reckoning;
use sheet::{check_sheet, check_table, same_table};
use std::fmt::Display;
use std::{fmt, io};

// So many words, without a fault.
#[derive(Clone, Copy)]
struct Whole(usize);

impl Display for Whole {
    fn fmt<W: fmt::Write>(&self, f: &mut fmt::Formatter<W>) -> fmt::Result {
        write!(f, "whole {}", self.0)
    }
}

// Prints what reading came to: its answer, or the refusal of its fault.
fn say<T: Display + Drop, F: Fault + Copy>(
    rt: &HostRuntime,
    label: impl Display + Drop,
    answer: Result<T, F>,
) -> io::Result<()> {
    match answer {
        Ok(answer) => println!(rt; "{label}: {answer}"),
        Err(fault) => println!(rt; "{label}: {}", fault.refusal()),
    }
}

// Reads a sheet in the reckoning `R`, and prints what it came to.
pub(crate) fn report<R: Reckoning>(
    rt: &HostRuntime,
    label: impl Display + Drop,
    words: &[u32],
) -> io::Result<()> {
    say(
        rt,
        label,
        check_sheet::<R>(words).map(|()| Whole(words.len())),
    )
}

// Reads a table beside its sheet in the reckoning `R`, and prints what it came to.
pub(crate) fn report_table<R: Reckoning>(
    rt: &HostRuntime,
    label: impl Display + Drop,
    sheet: &[u32],
    table: &[u32],
) -> io::Result<()> {
    say(
        rt,
        label,
        check_table::<R>(sheet, table).map(|()| Whole(table.len())),
    )
}

// Compares two tables of a sheet in the reckoning `R`, and prints what it came to.
pub(crate) fn report_same<R: Reckoning>(
    rt: &HostRuntime,
    label: &str,
    sheet: &[u32],
    left: &[u32],
    right: &[u32],
) -> io::Result<()> {
    let compared = same_table::<R>(sheet, left, right);
    say(
        rt,
        label,
        compared.map(|same| if same { "same" } else { "different" }),
    )
}
