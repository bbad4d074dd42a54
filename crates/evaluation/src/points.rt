// The checks of what an evaluation code is made from.
ghost use Rattle.std.specs.Prelude.{◌≡◌, ℕ, []};
ghost use Rattle.evaluation.specs.Evaluation.{shape_check, point_check};

use codes::fault::FitnessFault;
use fields::numbers::is_among;

// The checks of the length n, the dimension k and the count of the points.
pub fn check_shape(n: usize, k: usize, count: usize) -> Result<(), FitnessFault>
    ensures { result ≡ shape_check n k count }
{
    if n == 0 || n > 128 || count != n {
        return Err(FitnessFault::Length);
    }
    if k == 0 || k > n {
        return Err(FitnessFault::Dimension);
    }
    Ok(())
}

// Refuses the first point that is not below the order or equals an earlier one.
pub fn check_points(order: u32, points: &[u16]) -> Result<(), FitnessFault>
    ensures { result ≡ point_check order [] 0 points.now }
{
    for (place, x) in points.iter().enumerate() {
        if u32::from(*x) >= order || is_among(*x, &points[0..place]) {
            return Err(FitnessFault::Point(place));
        }
    }
    Ok(())
}
