//! The least number above all sectors of a list: whether all of them are in the file is seen without looking at each.
ghost use Rattle.std.specs.Prelude.{ℕ, List, ◌++◌};
ghost use Rattle.cfb_slots.specs.Slots.{IsLeastAbove};

/// The least number above all of some sectors and of these, where `above` is the least above the former.
pub fn least_above(above: usize, more: &[u32]) -> usize
    ensures { (sectors : List ℕ)
        → IsLeastAbove sectors above → IsLeastAbove (sectors ++ more.now) result }
{
    let mut least = above;
    for sector in more {
        if least <= *sector as usize {
            least = *sector as usize + 1;
        }
    }
    least
}
