// Words times multipliers, and back.
ghost use Rattle.std.specs.Prelude.{◌≡◌, ◌<◌, ◌≤◌, length, take};
ghost use Rattle.fields.specs.Arithmetic.{total};
ghost use Rattle.layers.specs.Scaled.{multiplier_check, products, quotients, Units};

use codes::fault::FitnessFault;
use codes::numbers::{Numbers, blank};
use fields::field::Field;

// Refuses the first multiplier that is 0 or not below the order.
pub fn check_multipliers<M: Numbers>(order: u32, multipliers: &M) -> Result<(), FitnessFault>
    ensures { result ≡ multiplier_check order 0 (M.Numbers.listed multipliers.now) }
{
    // A list of multipliers is asked for each by its place.
    for i in 0..multipliers.count() {
        let x = multipliers.at(i);
        if x == 0 || u32::from(x) >= order {
            return Err(FitnessFault::Multiplier(i));
        }
    }
    Ok(())
}

// Multiplies each number of a word by its multiplier.
pub fn scale_word<F: Field, M: Numbers>(field: &F, multipliers: &M, word: &mut [u16])
    requires { length (M.Numbers.listed multipliers.now) ≡ length word.old }
    ensures { word.new ≡ products (total (F.Field.arithmetic field.now)) (M.Numbers.listed multipliers.now) word.old }
{
    // A list of multipliers is asked for each by its place.
    for (i, x) in word.iter_mut().enumerate() {
        *x = field.multiply(multipliers.at(i), *x);
    }
}

// A number divided by a multiplier.
fn divide<F: Field>(field: &F, by: u16, x: u16) -> u16
    requires nonzero { 1 ≤ by }
    requires below { by < (F.Field.arithmetic field.now).order }
    ensures { result ≡ (total (F.Field.arithmetic field.now)).times ((total (F.Field.arithmetic field.now)).inverse by) x }
{
    let Some(inverse) = field.inverse(by) else {
        unreachable()
    };
    field.multiply(inverse, x)
}

// The numbers at unmarked places divided by their multipliers, and 0 at the others, at the front of an array: nothing is
// allocated here.
pub fn divide_word<F: Field, M: Numbers>(
    field: &F,
    multipliers: &M,
    received: &[u16],
    marks: &[u8],
) -> [u16; 128]
    requires few { length marks.now ≤ 128 }
    requires multipliers { length (M.Numbers.listed multipliers.now) ≡ length marks.now }
    requires received { length received.now ≡ length marks.now }
    requires units { Units (F.Field.arithmetic field.now).order (M.Numbers.listed multipliers.now) }
    ensures { take (length marks.now) result ≡ quotients (total (F.Field.arithmetic field.now))
        (M.Numbers.listed multipliers.now) received.now marks.now }
{
    let mut word = blank();
    // A list of multipliers is asked for each by its place.
    for (i, mark) in marks.iter().enumerate() {
        if *mark == 0 {
            word[i] = divide(field, multipliers.at(i), received[i]);
        }
    }
    word
}
