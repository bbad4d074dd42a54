// What a trailer says of the strips before it.
ghost use Rattle.std.specs.Prelude.{◌≡◌, ◌+◌, ◌*◌};

#[derive(Clone, Copy)]
pub struct Heading {
    // 1 for a prime field, 2 for GF(256). Any byte may come from a file or from C, so it is no enum.
    pub kind: u8,
    // The field's number: the modulus, or 285.
    pub modulus: u16,
    // How many numbers a word has.
    pub n: u8,
    // How many numbers a message has.
    pub k: u8,
    // How many rows the sheet has.
    pub depth: u8,
}

impl Heading {
    // How many numbers the sheet has.
    pub fn size(&self) -> usize
        ensures { result ≡ self.now.depth * self.now.k }
    {
        usize::from(self.depth) * usize::from(self.k)
    }

    // How many bytes a strip has: one of place, and two for each row.
    pub fn width(&self) -> usize
        ensures { result ≡ 1 + 2 * self.now.depth }
    {
        1 + 2 * usize::from(self.depth)
    }
}
