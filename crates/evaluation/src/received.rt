// A word that was received.
ghost use Rattle.std.specs.Prelude.{◌≡◌, length};

// A received word: for each point a number, and a mark that is not 0 where the number is missing, beside one another as
// C hands them in.
#[derive(Clone, Copy)]
pub struct ReceivedWord<'a> {
    pub points: &'a [u16],
    pub numbers: &'a [u16],
    pub marks: &'a [u8],
    ghost points_long: { length points.now ≡ length marks.now },
    ghost numbers_long: { length numbers.now ≡ length marks.now },
}
