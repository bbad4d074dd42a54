// Why a symbol's code has no multipliers.

#[derive(Clone, Copy, PartialEq, Eq, Debug)]
pub enum SymbolFault {
    // There is not one multiplier for each point.
    Length,
    // The multiplier at this place would be the inverse of 0.
    Multiplier(usize),
}
