ghost use Rattle.std.specs.Prelude.{◌≡◌, IfOk, vec_items, OnOk};
ghost use Rattle.std.specs.Option.{option_map};
ghost use Rattle.input.specs.Lines.{later_lines, to_come};
ghost use Rattle.input.specs.Runs.{run, after_run, within, front_word};

use crate::hex::hex_word;
use crate::text::Lines;
use std::alloc::{AllocError, Global};

// The word of the next line; none where that line is no word line, or there is none.
fn next_word(lines: &mut Lines<'_>) -> Option<u32>
    ensures value { result ≡ front_word (to_come lines.old) }
    ensures left { to_come lines.new ≡ later_lines (to_come lines.old) }
{
    hex_word(lines.next()?)
}

// Goes on to the end of the run, so that a run that is too long needs no memory.
#[tactic(auto, using(crate::proofs::RunSteps::after_by_front))]
fn skip_run(lines: &mut Lines<'_>)
    ensures left { to_come lines.new ≡ after_run (to_come lines.old) }
{
    while next_word(lines).is_some() {}
}

// The words of the run at the front of the lines, or none where they are more than the limit.
// Either way the lines left are those behind the run and the line that ended it, so that a reader can go on there.
#[tactic(auto, using(crate::proofs::RunSteps::run_steps), unfolding(crate::specs::Runs::within))]
pub fn read_words(
    alloc: Global,
    lines: &mut Lines<'_>,
    limit: usize,
) -> Result<Option<Vec<u32>>, AllocError>
    ensures words { IfOk result (λ o. option_map vec_items o ≡ within limit (run (to_come lines.old))) }
    ensures left { OnOk result (to_come lines.new ≡ after_run (to_come lines.old)) }
{
    let mut words = Vec::new(alloc);
    while let Some(word) = next_word(lines) {
        if words.len() == limit {
            skip_run(lines);
            return Ok(None);
        }
        words.push(word)?;
    }
    Ok(Some(words))
}
