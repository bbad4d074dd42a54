// Anything that hands out strips, and their delivery.
ghost use Rattle.std.specs.Prelude.{◌≡◌, ℕ, ◌<◌, List, [], length, get_or, slice_index_or};
ghost use Rattle.carrier.specs.Driven.{Follows};
ghost use Rattle.carrier.specs.Records.{meaning_of, records_of, deliver_answer, Delivered};
ghost use Rattle.file.specs.Deliveries.{brought, declined, Brings, Collected};
ghost use Rattle.file.specs.Fetches.{Fetched};
ghost use Rattle.file.specs.Form.{Strip, strip};

use carrier::collector::Collector;
use carrier::fault::CollectorFault;
use codes::interface::{Code, Issuer};

// A list of strips that all have one number for each row.
pub trait StripSource {
    ghost strips: { Self → List Strip };

    ghost depth: { Self → ℕ };

    // How many strips there are.
    fn count(&self) -> usize
        ensures { result ≡ length (strips self.now) };

    // How many rows they have.
    fn depth(&self) -> u8
        ensures { result ≡ depth self.now };

    // Copies the numbers of strip i into a buffer of the right length, and answers its place.
    fn fetch(&self, i: usize, numbers: &mut [u16]) -> Option<u8>
        ensures { Fetched (strips self.now) (depth self.now) i numbers.old numbers.new result };
}

// What a new collector made of the strips that were delivered to it.
#[derive(Drop)]
pub struct Outcome {
    // How many places hold a strip.
    pub kept: usize,
    // How many strips were declined.
    pub declined: usize,
    // How many of the numbers kept are wrong, or why there is no sheet.
    pub wrong: Result<usize, CollectorFault>,
}

// Delivers the strips of a source, first to last, to a new collector, and reads the sheet.
pub fn collect<C: Code + Drop, S: StripSource>(
    code: C,
    depth: usize,
    source: &S,
    sheet: &mut [u16],
    scratch: &mut [u16],
) -> Outcome
    ensures { Collected (C.Issuer.meaning code) (C.Code.need code) depth (S.StripSource.strips source.now) sheet.old sheet.new scratch.old scratch.new result }
{
    let mut collector = Collector::new(code, depth);
    let declined = deliver_all(&mut collector, source);
    let kept = collector.kept();
    let wrong = collector.read(sheet, scratch);
    Outcome {
        kept,
        declined,
        wrong,
    }
}

// Delivers every strip, first to last, and counts those that are declined.
pub fn deliver_all<C: Code, S: StripSource>(collector: &mut Collector<C>, source: &S) -> usize
    ensures run { Brings C.Issuer collector.old collector.new (S.StripSource.strips source.now) }
    ensures declined { let s = collector.old in result ≡ declined (meaning_of C.Issuer s) s.depth (records_of C.Issuer s) (S.StripSource.strips source.now) }
    ensures code { collector.new.code ≡ collector.old.code }
    ensures depth { collector.new.depth ≡ collector.old.depth }
{
    // Room for the longest strip of a source; nothing is allocated.
    let mut buffer = [0; 256];
    let depth = usize::from(source.depth());
    let mut declined: usize = 0;
    // A source is asked for its strips by number, since each goes into one buffer that is lent again.
    for i in 0..source.count() {
        if deliver_one(collector, source, i, &mut buffer[..depth]).is_err() {
            declined += 1;
        }
    }
    declined
}

// Delivers strip i.
fn deliver_one<C: Code, S: StripSource>(
    collector: &mut Collector<C>,
    source: &S,
    i: usize,
    numbers: &mut [u16],
) -> Result<(), CollectorFault>
    requires within { i < length (S.StripSource.strips source.now) }
    requires deep { length numbers.old ≡ S.StripSource.depth source.now }
    ensures answer { let x = get_or (S.StripSource.strips source.now) i (strip 0 []) in result ≡ deliver_answer C.Issuer collector.old x.place x.numbers }
    ensures records { let x = get_or (S.StripSource.strips source.now) i (strip 0 []) in Delivered C.Issuer collector.old collector.new x.place x.numbers result }
    ensures run { Follows C.Issuer collector.old collector.new (brought (slice_index_or (S.StripSource.strips source.now) i (strip 0 []))) }
{
    let Some(place) = source.fetch(i, numbers) else {
        unreachable()
    };
    collector.deliver(usize::from(place), numbers)
}
