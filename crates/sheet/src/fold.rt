// What the mark in a SLOT word says.
ghost use Rattle.std.specs.Prelude.{◌≡◌};
ghost use Rattle.sheet.specs.Folds.{mark_of, fold_of};

// How a slot is taken out, or that it is left open.
#[derive(Clone, Copy, PartialEq, Eq, Debug)]
pub enum Fold {
    Open,
    // By the gather of the reckoning that has this mark.
    Gather(u32),
    // By the product.
    Each,
}

// What a mark says.
impl From<u32> for Fold {
    ghost from_gives = { λ mark r. r ≡ fold_of mark };

    fn from(mark: u32) -> Fold {
        match mark {
            0 => Fold::Open,
            15 => Fold::Each,
            _ => Fold::Gather(mark),
        }
    }
}

// The mark of a fold.
impl From<Fold> for u32 {
    ghost from_gives = { λ fold r. r ≡ mark_of fold };

    fn from(fold: Fold) -> u32 {
        match fold {
            Fold::Open => 0,
            Fold::Gather(mark) => mark,
            Fold::Each => 15,
        }
    }
}
