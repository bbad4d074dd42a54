// How many numbers and answers were compared, and how many of them differ.
ghost use Rattle.std.specs.Prelude.{◌≡◌, ℕ, ◌+◌, ◌-◌, ◌^◌, ◌≤◌, min, max, length, if◌then◌else◌, count_by, not, codes, ◌==◌};
ghost use Rattle.std.specs.List.{zip};
ghost use Rattle.fields.specs.Numbers.{differ};
ghost use Rattle.vectors.specs.Sums.{Both};

use std::ops::Add;

// Nothing is compared at first.
#[derive(Clone, Copy, Default)]
pub struct Tally {
    pub compared: usize,
    pub differing: usize,
}

impl Tally {
    // One answer compared, which agrees or not.
    pub fn of(agrees: bool) -> Tally
        ensures compared { result.compared ≡ 1 }
        ensures differing { result.differing ≡ (if agrees then 0 else 1) }
    {
        Tally {
            compared: 1,
            differing: usize::from(!agrees),
        }
    }

    // Two lists compared place by place; where one is longer, its last places differ. Only equal lists differ nowhere.
    pub fn of_numbers(expected: &[u16], got: &[u16]) -> Tally
        ensures compared { result.compared ≡ max (length expected.now) (length got.now) }
        ensures differing { result.differing ≡ differ expected.now got.now
            + (max (length expected.now) (length got.now) - min (length expected.now) (length got.now)) }
        ensures equal { result.differing ≡ 0 → expected.now ≡ got.now }
    {
        let compared = expected.len().max(got.len());
        let both = expected.len().min(got.len());
        Tally {
            compared,
            differing: count_differing(expected, got) + (compared - both),
        }
    }

    // Whether all that was compared agrees.
    pub fn verdict(self) -> &'static str
        ensures { result.now ≡ (if self.differing == 0 then codes "agrees" else codes "DIFFERS") }
    {
        if self.differing == 0 {
            "agrees"
        } else {
            "DIFFERS"
        }
    }
}

// Both tallies; what differs in either differs in the sum.
impl Add for Tally {
    type Output = Tally;

    ghost add_gives = { λ a b sum. Both a b sum };

    fn add(self, other: Tally) -> Tally {
        Tally {
            compared: self.compared.saturating_add(other.compared),
            differing: self.differing.saturating_add(other.differing),
        }
    }
}

// In how many places two lists differ, up to the end of the shorter one.
fn count_differing(a: &[u16], b: &[u16]) -> usize
    ensures value { result ≡ count_by (λ p. not (p.0 == p.1)) (zip a.now b.now) }
    ensures few { result ≤ min (length a.now) (length b.now) }
{
    a.iter().zip(b).filter(|(x, y)| **x != **y).count()
}
