// The worked examples, as one theorem over the definitions that the contracts use.

#![tactic(auto)]

ghost use Rattle.std.specs.Prelude.{◌≡◌, length};
ghost use Rattle.worked.specs.Examples.{examples, ExamplesHold};

// Each of the worked examples holds. The answer is how many there are.
pub fn examples_hold() -> usize
    ensures hold { ExamplesHold }
    ensures count { result ≡ length examples }
{
    18
}
