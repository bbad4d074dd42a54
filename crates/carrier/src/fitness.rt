// Whether a code and a depth suit a collector.
ghost use Rattle.std.specs.Prelude.{◌≡◌, ℕ};
ghost use Rattle.carrier.specs.Checks.{fit_check};

use crate::fault::CollectorFault;
use codes::interface::Issuer;

// Whether a collector of the code and the depth is fit, and if not, why.
pub fn check_fitness<C: Issuer>(code: &C, depth: usize) -> Result<(), CollectorFault>
    ensures { result ≡ fit_check (C.Issuer.meaning code.now) depth }
{
    code.fitness()?;
    if depth == 0 || depth > 16 {
        return Err(CollectorFault::Depth);
    }
    Ok(())
}
