// The whole text for an input.
ghost use Rattle.std.specs.Prelude.{◌≡◌, IfOk, string_bytes};
ghost use Rattle.std.specs.Option.{option_map};
ghost use Rattle.input.specs.Lines.{later_lines, to_come};
ghost use Rattle.listing.specs.Inspected.{first_name, asked_in, asked, inspected};

use crate::list::{list_sheet, list_table};
use input::{Lines, Name, read_words};
use reckoning::{Cost, Count, Possible, Reckoning};
use std::alloc::{AllocError, Global};

// A sheet or a table of more words is not read.
const MOST_WORDS: usize = 4096;

// What an input asks to list.
#[derive(Clone, Copy, PartialEq, Eq, Debug)]
pub enum Task {
    // A sheet.
    Sheet,
    // The table that stands behind its sheet.
    Table,
}

// The reckoning that the first line names, if it names one.
fn first_name(lines: &mut Lines<'_>) -> Option<Name>
    ensures value { result ≡ first_name (to_come lines.old) }
    ensures left { to_come lines.new ≡ later_lines (to_come lines.old) }
{
    Name::try_from(lines.next()?).ok()
}

// The listing that these lines ask for in the reckoning `R`, or none where a sheet or a table is too long.
fn listed_in<R: Reckoning>(
    alloc: Global,
    task: Task,
    name: Name,
    lines: &mut Lines<'_>,
) -> Result<Option<String>, AllocError>
    ensures value { IfOk result (λ o. option_map string_bytes o ≡ asked_in R.Reckoning.meaning task name (to_come lines.old)) }
{
    let Some(sheet) = read_words(alloc, lines, MOST_WORDS)? else {
        return Ok(None);
    };
    match task {
        Task::Sheet => Ok(Some(list_sheet::<R>(alloc, name, &sheet)?)),
        Task::Table => {
            let Some(table) = read_words(alloc, lines, MOST_WORDS)? else {
                return Ok(None);
            };
            Ok(Some(list_table::<R>(alloc, name, &sheet, &table)?))
        }
    }
}

// The listing that an input asks for, or none where it is not one for this program.
fn listed(alloc: Global, task: Task, lines: &mut Lines<'_>) -> Result<Option<String>, AllocError>
    ensures value { IfOk result (λ o. option_map string_bytes o ≡ asked task (first_name (to_come lines.old)) (later_lines (to_come lines.old))) }
{
    let Some(name) = first_name(lines) else {
        return Ok(None);
    };
    match name {
        Name::Possible => listed_in::<Possible>(alloc, task, name, lines),
        Name::Count => listed_in::<Count>(alloc, task, name, lines),
        Name::Cost => listed_in::<Cost>(alloc, task, name, lines),
    }
}

// The text for an input: the listing of its sheet, or of its table, or that it is unknown.
pub fn inspect(alloc: Global, task: Task, bytes: &[u8]) -> Result<String, AllocError>
    ensures value { IfOk result (λ s. string_bytes s ≡ inspected task bytes.now) }
{
    match listed(alloc, task, &mut Lines::new(bytes))? {
        Some(text) => Ok(text),
        None => String::from_str(alloc, "unknown\n"),
    }
}
