// The slots of a card: which of a sheet's slots they are, and their sizes.
ghost use Rattle.std.specs.Prelude.{◌≡◌, [], length};
ghost use Rattle.sheet.specs.Dims.{dims_list};
ghost use Rattle.sheet.specs.Scope.{picked, all_there, mask_in, declare};

use crate::dims::Dims;
use crate::item::Slot;

// The sizes of a card over no slot.
impl Default for Dims {
    ghost is_default = { λ dims. dims_list dims ≡ [] };

    fn default() -> Dims {
        Dims {
            sizes: [0; 12],
            width: 0,
        }
    }
}

impl Dims {
    // The sizes as a slice.
    pub fn as_slice(&self) -> &[u32]
        ensures value { result.now ≡ dims_list self.now }
    {
        &self.sizes[..self.width]
    }

    // How many slots the card has.
    pub fn len(&self) -> usize
        ensures value { result ≡ length (dims_list self.now) }
    {
        self.as_slice().len()
    }
}

// The sizes of the slots in a mask, where bit i - 1 stands for slot i.
pub fn pick(sizes: &[u32; 12], scope: u32) -> Dims
    ensures value { dims_list result ≡ picked scope sizes.now }
{
    let mut chosen = [0; 12];
    let mut width = 0;
    let mut rest = scope;
    for size in sizes {
        if rest % 2 == 1 {
            chosen[width] = *size;
            width += 1;
        }
        rest /= 2;
    }
    Dims {
        sizes: chosen,
        width,
    }
}

// Whether all these slots are there: a slot that is not there has size 0.
pub(crate) fn all_there(sizes: &[u32]) -> bool
    ensures value { result ≡ all_there sizes.now }
{
    sizes.iter().all(|size| *size != 0)
}

// The mask of the slots that are there.
pub fn mask_in(sizes: &[u32; 12]) -> u32
    ensures value { result ≡ mask_in sizes.now }
{
    let mut mask = 0;
    let mut bit = 1;
    for size in sizes {
        if *size != 0 {
            mask += bit;
        }
        bit *= 2;
    }
    mask
}

// Notes the size of one slot more.
pub(crate) fn declare(sizes: &mut [u32; 12], slot: Slot)
    ensures value { sizes.new ≡ declare sizes.old slot }
{
    let place = (slot.number as usize).saturating_sub(1);
    if place < 12 {
        sizes[place] = slot.size;
    }
}
