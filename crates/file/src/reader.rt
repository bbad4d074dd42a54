// A file that was accepted: its heading, and the part with the strips.
ghost use Rattle.std.specs.Prelude.{◌≡◌, ℕ, ◌+◌, ◌*◌, ◌/◌, length, Some, None};
ghost use Rattle.file.specs.Form.{numbers_in, strips_in};
ghost use Rattle.file.specs.Reads.{strips_of, Trailing, Answer, Handed};

use crate::choice::FileCode;
use crate::fault::FileFault;
use crate::heading::Heading;
use crate::source::StripSource;
use carrier::fitness::check_fitness;

#[derive(Clone, Copy)]
pub struct Reader<'a> {
    heading: Heading,
    strips: &'a [u8],
}

// A heading, and the number of bytes of all strips.
#[derive(Clone, Copy)]
struct Trailer {
    heading: Heading,
    back: u16,
}

// The last eight bytes of a file.
fn trailer_of(file: &[u8]) -> Option<Trailer>
    ensures { Trailing file.now result }
{
    let [
        ..,
        kind,
        modulus_high,
        modulus_low,
        n,
        k,
        depth,
        back_high,
        back_low,
    ] = file
    else {
        return None;
    };
    let heading = Heading {
        kind: *kind,
        modulus: u16::from_be_bytes([*modulus_high, *modulus_low]),
        n: *n,
        k: *k,
        depth: *depth,
    };
    let back = u16::from_be_bytes([*back_high, *back_low]);
    Some(Trailer { heading, back })
}

// Accepts a file, or says why not.
pub fn read(file: &[u8]) -> Result<Reader<'_>, FileFault>
    ensures { Answer file.now result }
{
    let Some(trailer) = trailer_of(file) else {
        return Err(FileFault::TooShort);
    };
    let heading = trailer.heading;
    let code = FileCode::new(&heading)?;
    let back = usize::from(trailer.back);
    let end = file.len() - 8;
    if back > end || back % heading.width() != 0 {
        return Err(FileFault::BackCount);
    }
    check_fitness(&code, usize::from(heading.depth))?;
    Ok(Reader {
        heading,
        strips: &file[end - back..end],
    })
}

impl<'a> Reader<'a> {
    // The file's heading.
    pub fn heading(&self) -> Heading
        ensures { result ≡ self.now.heading }
    {
        self.heading
    }

    // The number of strips.
    pub fn count(&self) -> usize
        ensures { result ≡ length (strips_of self.now) }
    {
        self.strips.len() / self.heading.width()
    }

    // Strip i: its place, and the part of the file with its numbers.
    pub fn strip(&self, i: usize) -> Option<(u8, &'a [u8])>
        ensures { Handed (strips_of self.now) i (elim result [ None ↦ None | Some p ↦ Some (p.0, p.1.now) ]) }
    {
        cut(self.strips, self.heading.depth, i)
    }
}

// Strip i of the strips in a part of a file.
fn cut(strips: &[u8], depth: u8, i: usize) -> Option<(u8, &[u8])>
    ensures { Handed (strips_in depth (length strips.now / (1 + 2 * depth)) strips.now) i (elim result [ None ↦ None | Some p ↦ Some (p.0, p.1.now) ]) }
{
    let width = 1 + 2 * usize::from(depth);
    // By where it starts: the `nth` of the chunks goes over each strip before it.
    if i >= strips.len() / width {
        return None;
    }
    let start = i * width;
    let strip = &strips[start..start + width];
    Some((strip[0], &strip[1..]))
}

impl<'a> StripSource for Reader<'a> {
    ghost strips = { λ r. strips_of r };

    ghost depth = { λ r. r.heading.depth };

    fn count(&self) -> usize {
        Reader::count(self)
    }

    fn depth(&self) -> u8 {
        self.heading.depth
    }

    fn fetch(&self, i: usize, numbers: &mut [u16]) -> Option<u8> {
        let (place, bytes) = self.strip(i)?;
        if numbers.len() != usize::from(self.heading.depth) {
            return None;
        }
        widen(bytes, numbers);
        Some(place)
    }
}

// The numbers in these bytes, the high byte of each first.
fn widen(bytes: &[u8], numbers: &mut [u16])
    requires { length bytes.now ≡ 2 * length numbers.old }
    ensures { numbers.new ≡ numbers_in (length numbers.old) bytes.now }
{
    // The bytes are read by number: of what is written through a `zip` of `iter_mut` a proof knows nothing afterwards.
    for (i, number) in numbers.iter_mut().enumerate() {
        *number = u16::from_be_bytes([bytes[2 * i], bytes[2 * i + 1]]);
    }
}
