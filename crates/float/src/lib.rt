// Whole numbers and fractions as f32, and f32 as fractions and as bits.
#![tactic(auto)]

ghost use Rattle.std.specs.Prelude.{◌≡◌, ◌*◌, ◌<◌, ◌^◌, min, pos};
ghost use Rattle.std.specs.Float.Ieee as Ieee;
ghost use Rattle.std.specs.Float.{binary32};
ghost use Rattle.rational.specs.Rational.{magnitude_limit, LowestTerms, reduced, checked};
ghost use Rattle.rational.specs.Promise.{ChecksTo};
ghost use Rattle.float.specs.Float.{float_bits_limit, significand_limit, approximate_float, float_bits, ratio_float};

use rational::{MAGNITUDE_BITS, Rational64};
use std::num;

// 2^23, the first digit of a significand. The bits of an f32 leave it out and have the exponent from there on.
const HIDDEN_BIT: u64 = 0x80_0000;

// 2^31, the bit of the sign.
const SIGN_BIT: u64 = 0x8000_0000;

// The exponent of an infinity and of a NaN: eight ones.
const LARGEST_EXPONENT: u64 = 255;

// The smallest f32 above 0 is 1/2^149.
const SMALLEST_SHIFT: u64 = 149;

// The f32 nearest to n, and in the middle the even one.
pub fn nearest_f32(n: u64) -> f32
    ensures { result ≡ Ieee.of_int binary32 (pos n) }
{
    num::nearest_u64_to_f32(n)
}

// The bits of x. Every NaN has the same ones.
#[tactic(auto, using(crate::proofs::NanLaws::bits_is))]
pub fn f32_to_bits(x: f32) -> u32
    ensures { result ≡ float_bits x }
{
    num::f32_to_bits_with_nan(x)
}

// The f32 whose bits are a word.
pub fn f32_from_bits(word: u64) -> f32
    requires { word < float_bits_limit }
    ensures { result ≡ Ieee.of_bits binary32 word }
{
    num::f32_from_bits_with_nan(word as u32)
}

// 2^e, capped at the limit of a magnitude.
#[tactic(auto, using(crate::proofs::PowerOfTwoLaws::capped_shift))]
fn capped_power_of_two(e: u64) -> u64
    ensures { result ≡ min (2 ^ e) magnitude_limit }
{
    1 << e.min(MAGNITUDE_BITS)
}

// ±q * 2^k / 2^149 as a fraction, if it is in range. The loop finds how often q can be halved; `trailing_zeros` does too, but not
// at zero, which would take a case of its own. The loop is no `for`: it halves a number and counts how often, up to a bound, so that where it ends is what it finds.
fn dyadic_rational(negative: bool, q: u64, k: u64) -> Option<Rational64>
    requires { (q < significand_limit) × (k < 254) }
    ensures { result ≡ checked (reduced negative (q * 2 ^ k) (2 ^ 149)) }
{
    let mut m = q;
    let mut j = k;
    while j < SMALLEST_SHIFT && m % 2 == 0 {
        m = m / 2;
        j += 1;
    }
    if SMALLEST_SHIFT <= j {
        let n = rational::capped_mul(m, capped_power_of_two(j - SMALLEST_SHIFT));
        return rational::range_checked(Rational64 {
            negative: rational::sign_unless_zero(negative, n),
            numer: n,
            denom: 1,
        });
    }
    rational::range_checked(Rational64 {
        negative: rational::sign_unless_zero(negative, m),
        numer: m,
        denom: capped_power_of_two(SMALLEST_SHIFT - j),
    })
}

// The exact value of a finite f32 as a fraction, if it is in range.
pub fn approximate_float(x: f32) -> Option<Rational64>
    ensures { ChecksTo (approximate_float x) result }
{
    let word = num::f32_to_bits_with_nan(x) as u64;
    let negative = SIGN_BIT <= word;
    let significand = word % HIDDEN_BIT;
    match word % SIGN_BIT / HIDDEN_BIT {
        0 => dyadic_rational(negative, significand, 0),
        LARGEST_EXPONENT => None,
        exponent => dyadic_rational(negative, HIDDEN_BIT + significand, exponent - 1),
    }
}

// The f32 of a fraction: numerator and denominator are each rounded to the nearest f32, and divided once.
pub fn ratio_f32(x: Rational64) -> f32
    requires { LowestTerms x }
    ensures { result ≡ ratio_float x }
{
    let n = nearest_f32(x.numer);
    let d = nearest_f32(x.denom);
    if x.negative { -n / d } else { n / d }
}
