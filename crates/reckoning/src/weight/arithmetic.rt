// Arithmetic on numbers of 56 bits. A result that is too large is cut to the largest of them; none wraps.
ghost use Rattle.std.specs.Prelude.{◌≡◌};
ghost use Rattle.reckoning.specs.Cut.{cut, cut_sum, cut_product, lesser, greater};

use super::Capped;

impl Capped {
    // The number `n`, or the largest if `n` exceeds it.
    pub fn cut(n: u64) -> Capped
        ensures value { result ≡ cut n }
    {
        Capped {
            value: n.min(Capped::LARGEST),
        }
    }

    // The sum of two numbers, cut to the largest.
    pub fn cut_sum(self, other: Capped) -> Capped
        ensures value { result ≡ cut_sum self other }
    {
        Capped::cut(self.value + other.value)
    }

    // The product of two numbers, cut to the largest. It saturates far above that, so the cut is the same as of the whole product.
    pub fn cut_product(self, other: Capped) -> Capped
        ensures value { result ≡ cut_product self other }
    {
        Capped::cut(self.value.saturating_mul(other.value))
    }

    // The lesser of two numbers.
    pub fn lesser(self, other: Capped) -> Capped
        ensures value { result ≡ lesser self other }
    {
        self.min(other)
    }

    // The greater of two numbers.
    pub fn greater(self, other: Capped) -> Capped
        ensures value { result ≡ greater self other }
    {
        self.max(other)
    }
}

#[cfg(test)]
mod tests {
    use super::Capped;

    #[test]
    fn results_are_cut(rt: HostRuntime) {
        let largest = Capped::cut(Capped::LARGEST);
        assert_eq!(rt; u64::from(largest.cut_sum(largest)), Capped::LARGEST);
        // The smallest number whose square has more than 56 bits.
        let root = Capped::cut(1 << 28);
        assert_eq!(rt; u64::from(root.cut_product(root)), Capped::LARGEST);
        let below = Capped::cut(Capped::LARGEST - 1);
        assert_eq!(rt; u64::from(below.cut_sum(Capped::cut(1))), Capped::LARGEST);
        assert!(rt; Capped::try_from(Capped::LARGEST + 1).is_err());
    }
}
