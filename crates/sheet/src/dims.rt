ghost use Rattle.std.specs.Prelude.{◌≤◌};

// The sizes of a card's slots, by rising slot number.
#[derive(Clone, Copy)]
pub struct Dims {
    pub(crate) sizes: [u32; 12],
    pub(crate) width: usize,
    ghost within: { width ≤ 12 },
}
