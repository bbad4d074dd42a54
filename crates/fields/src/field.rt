// What a field is: a size q, and a sum, an opposite, a product and an inverse on the numbers below q, which keep the laws of a field.
ghost use Rattle.std.specs.Prelude.{◌≡◌, ℕ};
ghost use Rattle.fields.specs.Arithmetic.{Arithmetic, total, inverted};
ghost use Rattle.fields.specs.Laws.{Sizes, Sums, Products, Inverses};

// An argument that is not below q counts as 0, and no call alters a field.
pub trait Field {
    ghost arithmetic: { Self → Arithmetic };

    // The size q of the field; it may be 65,536, so it has a wider type than the numbers.
    fn order(&self) -> u32
        ensures { result ≡ (arithmetic self.now).order };

    // a + b
    fn add(&self, a: u16, b: u16) -> u16
        ensures { result ≡ (total (arithmetic self.now)).plus a b };

    // −a
    fn negate(&self, a: u16) -> u16
        ensures { result ≡ (total (arithmetic self.now)).opposite a };

    // a × b
    fn multiply(&self, a: u16, b: u16) -> u16
        ensures { result ≡ (total (arithmetic self.now)).times a b };

    // 1 / a, or `None` exactly where a counts as 0.
    fn inverse(&self, a: u16) -> Option<u16>
        ensures { result ≡ inverted (arithmetic self.now) a };

    ghost sizes: { (f : Self) → Sizes (arithmetic f) };

    ghost sums: { (f : Self) → Sums (arithmetic f) };

    ghost products: { (f : Self) → Products (arithmetic f) };

    ghost inverses: { (f : Self) → Inverses (arithmetic f) };
}
