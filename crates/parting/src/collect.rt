//! Lists made from lists, in slots of their own.

ghost use Rattle.std.specs.Prelude.{◌≡◌, ◌≤◌, List, All, length};
ghost use Rattle.std.specs.List.{flat_map};
ghost use Rattle.parting.specs.Calls.{GivesListed};

use arrayvec::ArrayVec;

/// The most transitions that a sheet can have: 64 states of 8 branches.
pub(crate) const MOST: usize = 512;

// What `give` gives of the elements, in their order.
// A loop: the library's `collect` takes an allocator, which there is none of here.
pub(crate) fn collect<T: Copy, U: Default + Drop, F: Fn(T) -> Option<U>>(
    from: &[T],
    give: F,
) -> ArrayVec<U, MOST>
    requires bound { length from.now ≤ 512 }
    requires callable { All (λ x. F.pre give x) from.now }
    ensures { (h : T → List U) → GivesListed (F.post give) h → result.items ≡ flat_map h from.now }
{
    let mut found = ArrayVec::new();
    for x in from {
        if let Some(y) = give(*x) {
            found.push(y);
        }
    }
    found
}
