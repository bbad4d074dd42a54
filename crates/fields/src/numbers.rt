// Lists of numbers.
ghost use Rattle.std.specs.Prelude.{◌≡◌};
ghost use Rattle.fields.specs.Checks.{stray};
ghost use Rattle.fields.specs.Numbers.{among};

// Whether n is one of the numbers.
pub fn is_among(n: u16, numbers: &[u16]) -> bool
    ensures { result ≡ among n numbers.now }
{
    numbers.contains(&n)
}

// The first place with a number that is not below the order.
pub fn find_stray(order: u32, numbers: &[u16]) -> Option<usize>
    ensures { result ≡ stray order numbers.now }
{
    numbers.iter().position(|x| u32::from(*x) >= order)
}
