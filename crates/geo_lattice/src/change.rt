//! Changes, views, tests and measures of values, by what they mean.
ghost use Rattle.std.specs.Prelude.{◌≡◌, ℕ, Bool, Option};

/// A change of values.
pub trait Change<L> {
    /// What a value becomes.
    ghost changed: { Self → L → L };

    /// Changes one value.
    fn change(&self, value: &mut L)
        ensures { value.new ≡ changed self.now value.old };
}

/// A view of values, of which some show nothing.
pub trait Show<L> {
    /// What a value shows.
    type Item: Drop;

    /// What a value shows, if anything.
    ghost shown: { Self → L → Option Self.Item };

    /// What one value shows, if anything.
    fn show(&self, value: &L) -> Option<Self::Item>
        ensures { result ≡ shown self.now value.now };
}

/// A test of values.
pub trait Test<L> {
    /// Whether a value passes.
    ghost passing: { Self → L → Bool };

    /// Whether one value passes.
    fn passes(&self, value: &L) -> bool
        ensures { result ≡ passing self.now value.now };
}

/// What a measure alone tells of a test, so that a value need not be looked at. No contract speaks of it: a value that it leaves out is
/// found later, where all are looked at.
pub trait Glance {
    /// The remainders by 16 of the measures of values that may pass, each a bit.
    fn remainders(&self) -> u16;
}

/// A measure of values.
pub trait Measure<L> {
    /// A value's measure.
    ghost measured: { Self → L → ℕ };

    /// One value's measure.
    fn measure(&self, value: &L) -> u64
        ensures { result ≡ measured self.now value.now };
}
