// Fractions in lowest terms, a sign beside two magnitudes: the stand-in for num's Rational64.
#![tactic(auto)]

ghost use Rattle.std.specs.Prelude.{◌≡◌, ◌&&◌, ltb, eqb, ◌*◌, ◌%◌, ◌<◌, ◌≤◌, ◌^◌, min};
ghost use Rattle.rational.specs.Gcd.{gcd};
ghost use Rattle.rational.specs.Root.{root};
ghost use Rattle.rational.specs.Rational.{magnitude_limit, LowestTerms, reduced, checked, opposite, reciprocal, fractional_part};
ghost use Rattle.rational.specs.Rational.{sum_magnitude, sum_sign, common_denominator, all_in_range, fraction_sum, difference, product, quotient, power, whole_root, rational_root};
ghost use Rattle.rational.specs.Promise.{ChecksTo};

// A fraction. Lowest terms are no invariant of it, since that would ask more of callers: `range_checked` takes a fraction that is not in lowest terms, and `==` any two.
#[derive(Clone, Copy, PartialEq, Eq)]
pub struct Rational64 {
    pub negative: bool,
    pub numer: u64,
    pub denom: u64,
}

// 2^63, the first magnitude out of range. A step that passes it is capped at it, and the range is tested once at the end.
pub const MAGNITUDE_LIMIT: u64 = 0x8000_0000_0000_0000;

// 2^32. The square root of a magnitude in range is below it, and so is every further root.
const ROOT_LIMIT: u64 = 0x1_0000_0000;

// 2^63 is the limit of a magnitude.
pub const MAGNITUDE_BITS: u64 = 63;

// The greatest common divisor, by Euclid's steps. No index is counted: the loop ends where the remainder is 0, so it is no `for`.
pub fn gcd(a: u64, b: u64) -> u64
    ensures { result ≡ gcd a b }
{
    let mut x = a;
    let mut y = b;
    while y != 0 {
        (x, y) = (y, x % y);
    }
    x
}

// a * b, capped at the limit.
pub fn capped_mul(a: u64, b: u64) -> u64
    ensures { result ≡ min (a * b) magnitude_limit }
{
    let product = a as u128 * b as u128;
    product.min(MAGNITUDE_LIMIT as u128) as u64
}

// b^k, capped at the limit. Where b is 0 or 1, the power is the same for all k above 0; otherwise it is at the limit from k = 63 on.
pub fn capped_pow(b: u64, k: u64) -> u64
    ensures { result ≡ min (b ^ k) magnitude_limit }
{
    b.saturating_pow(k.min(MAGNITUDE_BITS) as u32)
        .min(MAGNITUDE_LIMIT)
}

// The sign of ±n. Zero has none.
pub fn sign_unless_zero(negative: bool, n: u64) -> bool
    ensures { result ≡ (negative && ltb 0 n) }
{
    negative && 0 < n
}

// The fraction, if it is in range.
pub fn range_checked(x: Rational64) -> Option<Rational64>
    ensures { result ≡ checked x }
{
    if x.numer < MAGNITUDE_LIMIT && x.denom < MAGNITUDE_LIMIT {
        Some(x)
    } else {
        None
    }
}

// ±n/d in lowest terms.
#[tactic(auto, using(crate::proofs::GcdLaws::gcd_pos))]
fn lowest_terms(negative: bool, n: u64, d: u64) -> Rational64
    requires { 0 < d }
    ensures { result ≡ reduced negative n d }
{
    let g = gcd(n, d);
    let k = n / g;
    Rational64 {
        negative: sign_unless_zero(negative, k),
        numer: k,
        denom: d / g,
    }
}

// The common denominator of a sum, capped at the limit.
#[tactic(auto, using(crate::proofs::GcdLaws::gcd_pos))]
fn common_denominator(b: u64, d: u64) -> u64
    requires { 0 < d }
    ensures { result ≡ min (common_denominator b d) magnitude_limit }
{
    let g = gcd(b, d);
    capped_mul(b / g, d)
}

// The magnitude of a sum, capped at the limit: p + q, or how far p and q are apart where the signs differ.
fn sum_magnitude(differ: bool, p: u64, q: u64) -> u64
    requires { (p ≤ magnitude_limit) × (q ≤ magnitude_limit) }
    ensures { result ≡ min (sum_magnitude differ p q) magnitude_limit }
{
    if differ {
        p.abs_diff(q)
    } else {
        p.saturating_add(q).min(MAGNITUDE_LIMIT)
    }
}

// The sign of a sum, which is that of the larger magnitude.
fn sum_sign(s: bool, p: u64, t: bool, q: u64) -> bool
    ensures { result ≡ sum_sign s p t q }
{
    if p < q { t } else { s }
}

// Whether the four magnitudes of a sum are in range.
fn all_in_range(l: u64, p: u64, q: u64, s: u64) -> bool
    ensures { result ≡ all_in_range l p q s }
{
    l < MAGNITUDE_LIMIT && p < MAGNITUDE_LIMIT && q < MAGNITUDE_LIMIT && s < MAGNITUDE_LIMIT
}

// The whole part of the k-th root, by halving the interval that it lies in. No index is counted: the loop ends where the interval is one number, so it is no `for`.
fn floor_root(n: u64, k: u64) -> u64
    requires { (1 < k) × (n < magnitude_limit) }
    ensures { result ≡ root k n }
{
    let mut lo = 0u64;
    let mut hi = ROOT_LIMIT;
    while lo + 1 < hi {
        let mid = (lo + hi) / 2;
        if capped_pow(mid, k) <= n {
            lo = mid;
        } else {
            hi = mid;
        }
    }
    lo
}

// The k-th root of n, if it is whole.
pub fn int_root(n: u64, k: u64) -> Option<u64>
    requires { (1 < k) × (n < magnitude_limit) }
    ensures { result ≡ whole_root k n }
{
    let r = floor_root(n, k);
    if capped_pow(r, k) == n { Some(r) } else { None }
}

// The sign of a power, which is that of the base for an odd exponent.
fn power_sign(negative: bool, k: u64) -> bool
    ensures { result ≡ (negative && eqb (k % 2) 1) }
{
    negative && k % 2 == 1
}

impl Rational64 {
    pub fn checked_add(self, y: Rational64) -> Option<Rational64>
        requires { LowestTerms self × LowestTerms y }
        ensures { ChecksTo (fraction_sum self y) result }
    {
        let l = common_denominator(self.denom, y.denom);
        let p = capped_mul(l / self.denom, self.numer);
        let q = capped_mul(l / y.denom, y.numer);
        let s = sum_magnitude(self.negative != y.negative, p, q);
        let sign = sum_sign(self.negative, p, y.negative, q);
        if all_in_range(l, p, q, s) {
            Some(lowest_terms(sign, s, l))
        } else {
            None
        }
    }

    // The fraction with the other sign.
    pub fn opposite(self) -> Rational64
        requires { LowestTerms self }
        ensures { (result ≡ opposite self) × LowestTerms result }
    {
        Rational64 {
            negative: sign_unless_zero(!self.negative, self.numer),
            ..self
        }
    }

    pub fn checked_sub(self, y: Rational64) -> Option<Rational64>
        requires { LowestTerms self × LowestTerms y }
        ensures { ChecksTo (difference self y) result }
    {
        self.checked_add(y.opposite())
    }

    // Numerators and denominators are reduced crosswise first, so that no product leaves the range unless the result does.
    #[tactic(auto, using(crate::proofs::GcdLaws::gcd_pos))]
    pub fn checked_mul(self, y: Rational64) -> Option<Rational64>
        requires { LowestTerms self × LowestTerms y }
        ensures { ChecksTo (product self y) result }
    {
        let g = gcd(self.numer, y.denom);
        let h = gcd(y.numer, self.denom);
        let n = capped_mul(self.numer / g, y.numer / h);
        let d = capped_mul(self.denom / h, y.denom / g);
        let s = sign_unless_zero(self.negative != y.negative, n);
        range_checked(Rational64 {
            negative: s,
            numer: n,
            denom: d,
        })
    }

    #[tactic(auto, using(crate::proofs::LowestTermsLaws::reciprocal_lowest))]
    pub fn recip(self) -> Rational64
        requires { LowestTerms self × (0 < self.numer) }
        ensures { (result ≡ reciprocal self) × LowestTerms result }
    {
        Rational64 {
            negative: self.negative,
            numer: self.denom,
            denom: self.numer,
        }
    }

    pub fn checked_div(self, y: Rational64) -> Option<Rational64>
        requires { LowestTerms self × (LowestTerms y × (0 < y.numer)) }
        ensures { ChecksTo (quotient self y) result }
    {
        self.checked_mul(y.recip())
    }

    pub fn checked_pow(self, k: u64) -> Option<Rational64>
        requires { LowestTerms self }
        ensures { ChecksTo (power self k) result }
    {
        let n = capped_pow(self.numer, k);
        let d = capped_pow(self.denom, k);
        let s = sign_unless_zero(power_sign(self.negative, k), n);
        range_checked(Rational64 {
            negative: s,
            numer: n,
            denom: d,
        })
    }

    // The k-th root, if numerator and denominator have whole roots.
    pub fn rat_root(self, k: u64) -> Option<Rational64>
        requires { LowestTerms self × (1 < k) }
        ensures { ChecksTo (rational_root k self) result }
    {
        if self.negative {
            return None;
        }
        let n = int_root(self.numer, k)?;
        let d = int_root(self.denom, k)?;
        Some(Rational64 {
            negative: false,
            numer: n,
            denom: d,
        })
    }

    // The fraction without its whole part, toward zero.
    #[tactic(auto, using(crate::proofs::LowestTermsLaws::fractional_part_lowest))]
    pub fn fract(self) -> Rational64
        requires { LowestTerms self }
        ensures { (result ≡ fractional_part self) × LowestTerms result }
    {
        let n = self.numer % self.denom;
        let s = sign_unless_zero(self.negative, n);
        Rational64 {
            negative: s,
            numer: n,
            denom: self.denom,
        }
    }
}
