//! Divisors that are known before they are needed.
ghost use Rattle.std.specs.Prelude.{◌≡◌, ◌≤◌, ◌<◌, ◌+◌, ◌*◌, ◌/◌, ◌%◌, ◌^◌};

/// A divisor that isn't 0, and how often it goes into 2^64: a quotient by it takes a product, and no division.
#[derive(Clone, Copy, Debug)]
pub(crate) struct Divisor {
    /// The divisor.
    pub(crate) by: u64,
    often: u64,
    ghost some: { 0 < by },
    ghost within: { often * by ≤ 2 ^ 64 },
    ghost most: { 2 ^ 64 ≤ often * by + by },
}

impl Divisor {
    /// This divisor.
    pub(crate) fn new(by: u64) -> Divisor
        requires { 0 < by }
        ensures { result.by ≡ by }
    {
        Divisor {
            by,
            often: u64::MAX / by,
        }
    }

    /// The quotient, or one less.
    #[inline(always)]
    fn near(&self, n: u64) -> u64
        ensures within { result * self.now.by ≤ n }
        ensures most { n < result * self.now.by + self.now.by + self.now.by }
    {
        ((u128::from(n) * u128::from(self.often)) >> 64) as u64
    }

    /// The quotient, rounded down.
    #[inline(always)]
    pub(crate) fn quotient(&self, n: u64) -> u64
        ensures { result ≡ n / self.now.by }
    {
        let near = self.near(n);
        if n - near * self.by < self.by {
            near
        } else {
            near + 1
        }
    }

    /// The remainder.
    #[inline(always)]
    pub(crate) fn remainder(&self, n: u64) -> u64
        ensures { result ≡ n % self.now.by }
    {
        let rest = n - self.near(n) * self.by;
        if rest < self.by { rest } else { rest - self.by }
    }
}
