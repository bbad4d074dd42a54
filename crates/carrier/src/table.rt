// The collector's table: at each of 128 places nothing, or a strip with room for 16 numbers. The collector allocates
// nothing, so that no call fails for want of memory.
ghost use Rattle.std.specs.Prelude.{◌≡◌, ℕ, ◌-◌, ◌<◌, ◌≤◌, ◌++◌, length, take, replicate, count_by, Some, None, slice_index_or, slice_set};
ghost use Rattle.carrier.specs.Book.{filled};
ghost use Rattle.carrier.specs.Sheets.{received, marks};

// Its methods ask for a place below 128: the collector checks a place against its code's length once, before it asks.
#[derive(Clone, Copy)]
pub struct Table {
    strips: [Option<[u16; 16]>; 128],
    ghost full: { length strips ≡ 128 },
}

impl Table {
    // A table that holds nothing.
    pub fn new() -> Table
        ensures { result.strips ≡ replicate 128 None }
    {
        Table {
            strips: [None; 128],
        }
    }

    // The place now holds the strip, with zeros after it.
    pub fn put(&mut self, place: usize, strip: &[u16])
        requires place { place < 128 }
        requires strip { length strip.now ≤ 16 }
        ensures { self.new.strips ≡ slice_set self.old.strips place (Some (strip.now ++ replicate (16 - length strip.now) 0)) }
    {
        let mut whole = [0; 16];
        whole[..strip.len()].copy_from_slice(strip);
        self.strips[place] = Some(whole);
    }

    // The place now holds nothing.
    pub fn clear(&mut self, place: usize)
        requires { place < 128 }
        ensures { self.new.strips ≡ slice_set self.old.strips place None }
    {
        self.strips[place] = None;
    }

    // Whether the place holds a strip.
    pub fn holds(&self, place: usize) -> bool
        requires { place < 128 }
        ensures { result ≡ filled (slice_index_or self.now.strips place None) }
    {
        self.strips[place].is_some()
    }

    // How many of the first places hold a strip.
    pub fn held(&self, places: usize) -> usize
        requires { places ≤ 128 }
        ensures { result ≡ count_by filled (take places self.now.strips) }
    {
        self.strips[..places]
            .iter()
            .filter(|strip| strip.is_some())
            .count()
    }

    // Number `row` of each of the first strips, and a mark at each of these places that holds none; what follows says nothing.
    pub fn column(&self, row: usize, places: usize) -> ([u16; 128], [u8; 128])
        requires row { row < 16 }
        requires places { places ≤ 128 }
        ensures numbers { take places result.0 ≡ received row (take places self.now.strips) }
        ensures marks { take places result.1 ≡ marks (take places self.now.strips) }
    {
        let mut numbers = [0; 128];
        let mut missing = [0; 128];
        // Both lists are written by place: of what is written through a `zip` of `iter_mut` a proof knows nothing afterwards.
        for (place, strip) in self.strips[..places].iter().enumerate() {
            let (number, mark) = match strip {
                Some(strip) => (strip[row], 0),
                None => (0, 1),
            };
            numbers[place] = number;
            missing[place] = mark;
        }
        (numbers, missing)
    }
}
