// A run: a new collector, and any list of calls of it.
ghost use Rattle.std.specs.Prelude.{◌≡◌, ℕ, map, Ok};
ghost use Rattle.piles.specs.Keeping.{Keeps, CodesKeep};
ghost use Rattle.carrier.specs.Book.{after};
ghost use Rattle.carrier.specs.Promise.{Promise};
ghost use Rattle.carrier.specs.Records.{meaning_of, records_of, fitness_of, BookBelow};
ghost use Rattle.carrier.specs.Replies.{asked, reply};
ghost use Rattle.carrier.specs.Steps.{Answered};

use crate::call::Call;
use crate::collector::Collector;
use codes::interface::{Code, Issuer};

// A new collector of the code and the depth answers the calls, first to last. It allocates nothing and never fails.
// Its contract is the theorem on runs: what is promised of the calls and their answers, for a code that keeps the code meaning,
// and that the evaluation and repetition codes, and every pile of layers on them, keep it.
pub fn run<C: Code + Drop>(code: C, depth: usize, calls: &mut [Call])
    ensures promise { Promise (C.Issuer.meaning code) (C.Code.need code) depth (map asked calls.old) (map reply calls.new) }
    ensures keeps { Keeps (C.Issuer.meaning code) }
    ensures codes { CodesKeep }
{
    let mut collector = Collector::new(code, depth);
    for call in calls.iter_mut() {
        step(&mut collector, call);
    }
}

// The collector answers one call.
fn step<C: Code>(collector: &mut Collector<C>, call: &mut Call)
    requires { let s = collector.old in BookBelow (meaning_of C.Issuer s).order s.depth (records_of C.Issuer s) }
    ensures answer { let s = collector.old in Answered (meaning_of C.Issuer s) (C.Code.need s.code) s.depth (records_of C.Issuer s) (asked call.old) (reply call.new) }
    ensures book { let s = collector.old in (fitness_of C.Issuer s ≡ Ok tt → records_of C.Issuer collector.new ≡ after (meaning_of C.Issuer s).long s.depth (meaning_of C.Issuer s).order (records_of C.Issuer s) (asked call.old)) }
    ensures below { let s = collector.old in BookBelow (meaning_of C.Issuer s).order s.depth (records_of C.Issuer collector.new) }
    ensures code { collector.new.code ≡ collector.old.code }
    ensures depth { collector.new.depth ≡ collector.old.depth }
{
    match call {
        Call::Deliver {
            place,
            strip,
            answer,
        } => {
            *answer = Some(collector.deliver(*place, strip));
        }
        Call::Strike { place, answer } => {
            *answer = Some(collector.strike(*place));
        }
        Call::Read {
            sheet,
            scratch,
            answer,
        } => {
            *answer = Some(collector.read(sheet, scratch));
        }
    }
}
