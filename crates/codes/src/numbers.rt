// Lists of numbers, however they are held.
ghost use Rattle.std.specs.Prelude.{◌≡◌, ℕ, List, length, replicate, slice_index};
ghost use Rattle.codes.specs.Lists.{counting, filled};

use std::convert::AsSlice;

// A list that is asked for its numbers one by one.
pub trait Numbers {
    ghost listed: { Self → List ℕ };

    // How many numbers there are.
    fn count(&self) -> usize
        ensures { result ≡ length (listed self.now) };

    // The number at a place, and 0 past the last one.
    fn at(&self, i: usize) -> u16
        ensures { result ≡ slice_index (listed self.now) i };
}

// Numbers that lie in memory one after another.
impl<L: AsSlice<u16>> Numbers for L {
    ghost listed = { λ l. L.items l };

    fn count(&self) -> usize {
        self.as_slice().len()
    }

    fn at(&self, i: usize) -> u16 {
        self.as_slice().get(i).copied().unwrap_or(0)
    }
}

// The numbers from 0 up to a bound, which is not among them; they take no memory.
#[derive(Clone, Copy)]
pub struct Upto {
    count: u16,
}

impl Upto {
    // The numbers 0 to `count` - 1.
    pub fn new(count: u16) -> Upto
        ensures { ⟦<Upto as Numbers>⟧.listed result ≡ counting 0 count }
    {
        Upto { count }
    }
}

impl Numbers for Upto {
    ghost listed = { λ u. counting 0 u.count };

    fn count(&self) -> usize {
        usize::from(self.count)
    }

    fn at(&self, i: usize) -> u16 {
        if i < usize::from(self.count) {
            i as u16
        } else {
            0
        }
    }
}

// Room for the longest message or word: no code allocates.
pub fn blank() -> [u16; 128]
    ensures { result ≡ replicate 128 0 }
{
    [0; 128]
}

// The first 128 numbers of a list, with zeros after a shorter one. A list is asked for each by its place.
pub fn gather<P: Numbers>(list: &P) -> [u16; 128]
    ensures { result ≡ filled 128 (P.Numbers.listed list.now) }
{
    let mut numbers = blank();
    for (i, number) in numbers.iter_mut().enumerate() {
        *number = list.at(i);
    }
    numbers
}
