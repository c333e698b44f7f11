// What every reckoning offers, means and obeys.
ghost use Rattle.std.specs.Prelude.{◌≡◌};
ghost use Rattle.reckoning.specs.Algebra.{Algebra, gathered};
ghost use Rattle.reckoning.specs.Laws.{Laws};
ghost use Rattle.reckoning.specs.Units.{Units};

// A reckoning says what weights are and how they combine: by a product, and by one or two gathers, which have the marks
// 1 and 2. The product and each gather form a commutative semiring.
pub trait Reckoning {
    // What a combination can weigh. Every value of this type is a weight.
    type Weight: Copy;

    // The weights with their codes, and how they combine.
    ghost meaning: { Algebra Self.Weight };

    // The weight of a combination that is not listed. It is neutral for each gather, and a product with it is zero.
    fn zero() -> Self::Weight
        ensures value { result ≡ meaning.zero };

    // The weight that is neutral for the product.
    fn one() -> Self::Weight
        ensures value { result ≡ meaning.one };

    // The weight that `code` stands for; `None` if it is no weight's code, and in no other case.
    fn decode(code: u64) -> Option<Self::Weight>
        ensures value { result ≡ meaning.decode code };

    // The code of `weight`, which has 56 bits.
    fn encode(weight: Self::Weight) -> u64
        ensures value { result ≡ meaning.code weight };

    // The product of two weights.
    fn multiply(a: Self::Weight, b: Self::Weight) -> Self::Weight
        ensures value { result ≡ meaning.times a b };

    // Whether the reckoning has a gather of this mark. Callers have the mark from a word, so it can be any number, and this
    // is the test of it: a narrower type would ask them to test it first.
    fn has(mark: u32) -> bool
        ensures value { result ≡ meaning.has mark };

    // The gather of two weights by a mark; `None` if the reckoning lacks the mark, and in no other case.
    fn gather(mark: u32, a: Self::Weight, b: Self::Weight) -> Option<Self::Weight>
        ensures value { result ≡ gathered meaning mark a b };

    // The laws that generic code may rely on.
    ghost lawful: { Laws meaning };
}

// The codes of zero and of one. They differ and stand for zero and one again, so no type with a single weight, and none
// that decodes nothing, can be a reckoning.
pub fn units<R: Reckoning>() -> (u64, u64)
    ensures value { Units R.Reckoning.meaning result }
{
    (R::encode(R::zero()), R::encode(R::one()))
}
