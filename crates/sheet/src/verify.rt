// Reading a sheet or a table through to its end.
ghost use Rattle.std.specs.Prelude.{◌≡◌, Ok};
ghost use Rattle.sheet.specs.Laws.{OnlyWrittenSheets, WholeSheets, SheetsReadBack, OnlyWrittenTables, WholeTables, TablesReadBack, EqualTables, ToldByWeights};
ghost use Rattle.sheet.specs.Reading.{on_read, erased, entry};
ghost use Rattle.sheet.specs.ReadSheet.{read_sheet};
ghost use Rattle.sheet.specs.ReadTable.{read_table};
ghost use Rattle.sheet.specs.Scope.{sizes_of, open_slots};
ghost use Rattle.sheet.specs.Verify.{noted, same_tables};

use crate::fold::Fold;
use crate::item::Item;
use crate::reader::{SheetReader, TableReader};
use crate::scope::declare;
use faults::{SheetFault, TableFault};
use reckoning::Reckoning;

// Notes the size of an open slot, if the item is one.
fn note_open(sizes: &mut [u32; 12], item: Item<'_>)
    ensures value { sizes.new ≡ noted sizes.old (entry item.entry) }
{
    if let Item::Slot(slot) = item {
        if slot.fold == Fold::Open {
            declare(sizes, slot);
        }
    }
}

// The sizes of the open slots of a sheet among the slots 1 to 12, 0 for the others; or the sheet's first fault.
#[tactic(auto, using(crate::proofs::Answered::through))]
pub fn open_sizes<R: Reckoning>(sheet: &[u32]) -> Result<[u32; 12], SheetFault>
    ensures value { result ≡ on_read (λ f. f) (read_sheet R.Reckoning.meaning sheet.now) (λ s. Ok (sizes_of (open_slots s.slots))) }
{
    let mut sizes = [0; 12];
    let mut reader = SheetReader::<R>::new(sheet);
    while let Some(item) = reader.next()? {
        note_open(&mut sizes, item);
    }
    Ok(sizes)
}

// Reads a sheet through to its end: nothing where it is whole, else its first fault.
// It is whole exactly where the words are the written form of a valid sheet.
pub fn check_sheet<R: Reckoning>(sheet: &[u32]) -> Result<(), SheetFault>
    ensures value { result ≡ erased (read_sheet R.Reckoning.meaning sheet.now) }
    ensures written { WholeSheets R.Reckoning.meaning sheet.now result }
    ensures only_written { OnlyWrittenSheets R.Reckoning.meaning sheet.now }
    ensures gives_back { SheetsReadBack R.Reckoning.meaning }
{
    SheetReader::<R>::new(sheet).finish()
}

// Reads a table through to its end beside its sheet: nothing where both are whole, else the first fault.
// They are whole exactly where the words of the table are the written form of a valid table of the sheet.
pub fn check_table<R: Reckoning>(sheet: &[u32], table: &[u32]) -> Result<(), TableFault>
    ensures value { result ≡ erased (read_table R.Reckoning.meaning sheet.now table.now) }
    ensures written { WholeTables R.Reckoning.meaning sheet.now table.now result }
    ensures only_written { OnlyWrittenTables R.Reckoning.meaning sheet.now table.now }
    ensures gives_back { TablesReadBack R.Reckoning.meaning sheet.now }
{
    TableReader::<R>::new(sheet, table).finish()
}

// Whether two tables of a sheet give every combination the same weight; or the first fault of the one, then of the other.
// It compares the words, which suffices: equal tables are equal words.
pub fn same_table<R: Reckoning>(
    sheet: &[u32],
    left: &[u32],
    right: &[u32],
) -> Result<bool, TableFault>
    ensures value { result ≡ same_tables R.Reckoning.meaning sheet.now left.now right.now }
    ensures weights { ToldByWeights R.Reckoning.meaning sheet.now left.now right.now result }
    ensures equal_words { EqualTables R.Reckoning.meaning }
{
    check_table::<R>(sheet, left)?;
    check_table::<R>(sheet, right)?;
    Ok(left == right)
}
