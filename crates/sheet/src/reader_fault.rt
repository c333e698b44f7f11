// What tells the reading of a table from that of a sheet.
ghost use Rattle.std.specs.Prelude.{◌≡◌, cond, Some, None};
ghost use Rattle.std.specs.Option.{option_map};
ghost use Rattle.words.specs.declared.fault.WordFault.{WordFault};
ghost use Rattle.faults.specs.declared.fault.CardFault.{CardFault};
ghost use Rattle.faults.specs.declared.fault.SheetFault.{SheetFault};
ghost use Rattle.sheet.specs.Dims.{dims_list};
ghost use Rattle.sheet.specs.Form.{Form, sheet_form, table_form};
ghost use Rattle.sheet.specs.Scope.{picked};

use crate::dims::Dims;
use crate::scope::{all_there, mask_in, pick};
use faults::{CardFault, Fault, SheetFault, TableFault};
use words::WordFault;

// The fault that ends a reading says what is read: a sheet, or a table beside its sheet.
pub trait ReaderFault: Fault + Copy + From<WordFault> + From<CardFault> + From<SheetFault> {
    // How the faults below rise, how an end is wrong, and which slots a card may have.
    ghost form: { Form Self };

    // The fault of an END that counts other words than those before it, or that a word follows.
    fn wrong_end(place: usize) -> Self
        ensures value { result ≡ form.wrong_end place };

    // Whether a card may be over the slots in a mask, where the slots that there are have these sizes.
    fn may_cover(sizes: &[u32; 12], scope: u32) -> bool
        ensures value { result ≡ form.rule sizes.now scope };

    // The sizes of the slots in a mask, if a card may be over them.
    fn cover(sizes: &[u32; 12], scope: u32) -> Option<Dims>
        ensures value { option_map dims_list result ≡ cond (form.rule sizes.now scope) (Some (picked scope sizes.now)) None }
    {
        if Self::may_cover(sizes, scope) {
            Some(pick(sizes, scope))
        } else {
            None
        }
    }

    // `?` carries a fault of the layers below as the form says.
    ghost words_rise: { (fault : WordFault) (r : Self) → ⟦<Self as From<WordFault>>⟧.from_gives fault r → r ≡ form.of_word fault };

    ghost cards_rise: { (fault : CardFault) (r : Self) → ⟦<Self as From<CardFault>>⟧.from_gives fault r → r ≡ form.of_card fault };

    ghost sheets_rise: { (fault : SheetFault) (r : Self) → ⟦<Self as From<SheetFault>>⟧.from_gives fault r → r ≡ form.of_sheet fault };
}

// A card of a sheet is over slots of the sheet.
impl ReaderFault for SheetFault {
    ghost form = { sheet_form };

    ghost words_rise = { λ _ _ e. e };

    ghost cards_rise = { λ _ _ e. e };

    ghost sheets_rise = { λ _ _ e. e };

    fn wrong_end(place: usize) -> SheetFault {
        SheetFault::End { place }
    }

    fn may_cover(sizes: &[u32; 12], scope: u32) -> bool {
        Self::cover(sizes, scope).is_some()
    }

    // The sizes are picked once: they tell whether the slots are there.
    fn cover(sizes: &[u32; 12], scope: u32) -> Option<Dims> {
        let dims = pick(sizes, scope);
        if all_there(dims.as_slice()) {
            Some(dims)
        } else {
            None
        }
    }
}

// A table's card is over exactly the open slots.
impl ReaderFault for TableFault {
    ghost form = { table_form };

    ghost words_rise = { λ _ _ e. e };

    ghost cards_rise = { λ _ _ e. e };

    ghost sheets_rise = { λ _ _ e. e };

    fn wrong_end(place: usize) -> TableFault {
        TableFault::End { place }
    }

    fn may_cover(sizes: &[u32; 12], scope: u32) -> bool {
        scope == mask_in(sizes)
    }
}
