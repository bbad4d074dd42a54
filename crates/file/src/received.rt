// What a file's strips carry.
ghost use Rattle.std.specs.Prelude.{◌≡◌, ℕ, ◌+◌, ◌*◌, length, take, slice_index};

use crate::heading::Heading;

mod reception;

pub use reception::{LONGEST, receive};

// The sheet that a file's strips carry, and how they fared.
#[derive(Drop)]
pub struct Received {
    pub heading: Heading,
    // How many places hold a strip.
    pub kept: usize,
    // How many strips were declined.
    pub declined: usize,
    // How many of the numbers kept are wrong.
    pub wrong: usize,
    // The sheet's rows one after another; what follows them says nothing. Nothing is allocated.
    sheet: [u16; 2048],
    ghost full: { length sheet ≡ 2048 },
}

impl Received {
    // A number of the sheet, by its row and its place in the row.
    pub fn number(&self, row: u8, place: u8) -> u16
        ensures { let x = self.now in result ≡ slice_index x.sheet (row * x.heading.k + place) }
    {
        let at = usize::from(row) * usize::from(self.heading.k) + usize::from(place);
        self.sheet.get(at).copied().unwrap_or(0)
    }

    // The rows one after another.
    pub fn rows(&self) -> &[u16]
        ensures { let x = self.now in result.now ≡ take (x.heading.depth * x.heading.k) x.sheet }
    {
        let size = self.heading.size();
        &self.sheet[..size.min(self.sheet.len())]
    }
}
