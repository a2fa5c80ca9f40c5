//! Values that contracts can tell apart as a program does.
ghost use Rattle.std.specs.Prelude.{◌≡◌, ◌<◌, ◌^◌, true};
ghost use Rattle.std.specs.Cmp.{booleans_Decides};
ghost use Rattle.std.proofs.lemmas.Bool.{eqb-true};
ghost use Rattle.mapdb_join.specs.Lawful.Exact.{exact_pair};

/// A type that says which of its values a program can have.
///
/// Contracts speak of more values than a program can have: of a byte above 255, or of a map whose
/// keys are out of order. Laws that promise that a value *exists* name one of these.
pub trait Representable {
    /// What is true of exactly the values that a program can have, memory aside.
    ghost is_value: { Self → Type 0 };

    /// Shows that the value at hand is one. It reads the value and does nothing else; only proofs
    /// have a use for it.
    fn prove_value(&self)
        ensures { is_value self.now };
}

/// A type whose `==` is exact: values that compare equal are the same value.
///
/// Keys and the values of [`Flat`](crate::Flat) are of such types.
pub trait Exact: Eq + Copy + Representable {
    /// Equal values are the same value.
    ghost exact: { (a b : Self) → Self.eq a b ≡ true → a ≡ b };
}

impl Representable for u8 {
    ghost is_value = { λ n. n < 2 ^ 8 };

    fn prove_value(&self) {
        let _value = *self;
    }
}

impl Exact for u8 {
    ghost exact = { eqb-true };
}

impl Representable for u16 {
    ghost is_value = { λ n. n < 2 ^ 16 };

    fn prove_value(&self) {
        let _value = *self;
    }
}

impl Exact for u16 {
    ghost exact = { eqb-true };
}

impl Representable for u32 {
    ghost is_value = { λ n. n < 2 ^ 32 };

    fn prove_value(&self) {
        let _value = *self;
    }
}

impl Exact for u32 {
    ghost exact = { eqb-true };
}

impl Representable for u64 {
    ghost is_value = { λ n. n < 2 ^ 64 };

    fn prove_value(&self) {
        let _value = *self;
    }
}

impl Exact for u64 {
    ghost exact = { eqb-true };
}

impl Representable for usize {
    ghost is_value = { λ n. n < 2 ^ 64 };

    fn prove_value(&self) {
        let _value = *self;
    }
}

impl Exact for usize {
    ghost exact = { eqb-true };
}

impl Representable for bool {
    ghost is_value = { λ _. Unit {0} };

    fn prove_value(&self) {}
}

impl Exact for bool {
    ghost exact = { λ a b. (booleans_Decides a b).0 };
}

impl<A: Representable, B: Representable> Representable for (A, B) {
    ghost is_value = { λ p. A.is_value p.0 × B.is_value p.1 };

    fn prove_value(&self) {
        self.0.prove_value();
        self.1.prove_value();
    }
}

impl<A: Exact, B: Exact> Exact for (A, B) {
    ghost exact = { exact_pair A.exact B.exact };
}
