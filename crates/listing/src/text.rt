// The lines, in readable words.
ghost use Rattle.std.specs.Prelude.{◌≡◌, map, Some};
ghost use Rattle.words.specs.Layout.{load_part};
ghost use Rattle.sheet.specs.Reading.{entry};
ghost use Rattle.listing.specs.ItemLine.{gather_name, fold_name, noun, spaced, slots_text, item_line};

use input::Name;
use sheet::{CardHead, Fold, Head, Item, Slot};
use std::fmt;
use words::load_of;

// The name of mark 1, which is another gather in each reckoning.
fn gather_name(name: Name) -> &'static str
    ensures value { result.now ≡ gather_name name }
{
    match name {
        Name::Possible => "some",
        Name::Count => "total",
        Name::Cost => "least",
    }
}

// The name of a slot's fold.
fn fold_name(name: Name, fold: Fold) -> &'static str
    ensures value { result.now ≡ fold_name name fold }
{
    match fold {
        Fold::Open => "open",
        Fold::Gather(2) => "most",
        Fold::Gather(_) => gather_name(name),
        Fold::Each => "each",
    }
}

// The noun for so many: the plural but for one.
fn noun(count: u32, one: &'static str, many: &'static str) -> &'static str
    ensures value { result.now ≡ noun count one.now many.now }
{
    if count == 1 { one } else { many }
}

// The numbers of the slots in a mask, where bit i - 1 stands for slot i, with a space in front of each.
#[derive(Clone, Copy)]
struct Slots(u32);

impl fmt::Display for Slots {
    ghost output = { λ slots. Some (slots_text slots.0) };

    fn fmt<W: fmt::Write>(&self, f: &mut fmt::Formatter<W>) -> fmt::Result {
        if self.0 == 0 {
            return f.write_str(" no slot");
        }
        let mut rest = self.0;
        for number in 1..=12u32 {
            if rest % 2 == 1 {
                write!(f, " {number}")?;
            }
            rest /= 2;
        }
        Ok(())
    }
}

// The values in some VALUE words, with a space in front of each.
#[derive(Clone, Copy)]
struct Values<'a>(&'a [u32]);

impl fmt::Display for Values<'_> {
    ghost output = { λ values. Some (spaced (map load_part values.0.now)) };

    fn fmt<W: fmt::Write>(&self, f: &mut fmt::Formatter<W>) -> fmt::Result {
        for word in self.0 {
            write!(f, " {}", load_of(*word))?;
        }
        Ok(())
    }
}

// An item as one line, without the line feed, in the reckoning of this name; the end has the number of words.
#[derive(Clone, Copy)]
pub struct ItemLine<'a> {
    pub name: Name,
    pub item: Item<'a>,
}

impl fmt::Display for ItemLine<'_> {
    ghost output = { λ line. Some (item_line line.name (entry line.item)) };

    #[tactic(auto, unfolding(crate::specs::ItemLine::item_line))]
    fn fmt<W: fmt::Write>(&self, f: &mut fmt::Formatter<W>) -> fmt::Result {
        match self.item {
            Item::Head(Head { slots, open, cards }) => write!(
                f,
                "sheet: {slots} {}, {open} open, {cards} {}",
                noun(slots, "slot", "slots"),
                noun(cards, "card", "cards")
            ),
            Item::Slot(Slot { number, fold, size }) => write!(
                f,
                "slot {number}: {}, {size} {}",
                fold_name(self.name, fold),
                noun(size, "value", "values")
            ),
            Item::Card(CardHead { scope, rows }) => write!(
                f,
                "card over{}: {rows} {}",
                Slots(scope),
                noun(rows, "row", "rows")
            ),
            Item::Row { values, code, .. } => write!(f, "row{}: {code}", Values(values)),
            Item::End { words } => write!(f, "whole {words}"),
        }
    }
}
