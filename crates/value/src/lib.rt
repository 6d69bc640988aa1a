// Angles a + b·pi with their arithmetic, after the Rust's value.rs.
#![tactic(auto)]

ghost use Rattle.std.specs.Prelude.{◌≡◌, ◌<◌};
ghost use Rattle.rational.specs.Rational.{LowestTerms};
ghost use Rattle.rational.specs.Promise.{SoundOption, ChecksTo};
ghost use Rattle.value.specs.Value.{Sound, rational_value, or_overflow, parts_or_overflow, pi, common_ratio, extract_root, inverted, or_function_of_floats, sine_table, turn};
ghost use Rattle.value.specs.Value.{integer, into_float, from_float, value_sum, value_difference, product_rational_part, product_pi_part, value_product, negation, approximate_quotient, value_quotient, value_power, square_root, sine, cosine, tangent, exponential, logarithm};
ghost use Rattle.value.specs.Promise.{EvaluatesTo, IfValue, GivesThen};

use rational::{MAGNITUDE_LIMIT, Rational64};

// An angle a + b·pi. That its parts are in lowest terms is no invariant, as it is none of a fraction.
#[derive(Clone, Copy, PartialEq, Eq)]
pub struct Value {
    pub a: Rational64,
    pub b: Rational64,
}

// The Rust's Result<Value, EvalError>, with one case more: what the Rust hands to a function of floats.
// Document 01 names this enum and its cases, so that it is no Result.
#[derive(Clone, Copy)]
pub enum Evaluation {
    Value(Value),
    DivideByZero,
    Overflow,
    ApproximateFail(f32),
    FunctionOfFloats,
}

// 2^32, the first index of a root that the Rust does not take.
const ROOT_INDEX_LIMIT: u64 = 0x1_0000_0000;

// The bits of the f32 nearest to pi.
const PI_BITS: u32 = 0x4049_0fdb;

const ZERO: Rational64 = Rational64 {
    negative: false,
    numer: 0,
    denom: 1,
};

const ONE: Rational64 = Rational64 {
    negative: false,
    numer: 1,
    denom: 1,
};

const TWO: Rational64 = Rational64 {
    negative: false,
    numer: 2,
    denom: 1,
};

// The fraction that stands for pi².
const PI_SQUARED: Rational64 = Rational64 {
    negative: false,
    numer: 6499908331188584841,
    denom: 658578405682719844,
};

// pi/2, Value::PI_2 in the Rust.
const HALF_PI: Value = Value {
    a: ZERO,
    b: Rational64 {
        negative: false,
        numer: 1,
        denom: 2,
    },
};

// The angle -1.
const MINUS_ONE: Value = Value {
    a: Rational64 {
        negative: true,
        numer: 1,
        denom: 1,
    },
    b: ZERO,
};

// The angle x, with no part of pi.
fn rational_value(x: Rational64) -> Evaluation
    ensures { result ≡ rational_value x }
{
    Evaluation::Value(Value { a: x, b: ZERO })
}

// The angle of both parts, or overflow where one of them is missing.
fn parts_or_overflow(a: Option<Rational64>, b: Option<Rational64>) -> Evaluation
    ensures { result ≡ parts_or_overflow a b }
{
    match (a, b) {
        (Some(a), Some(b)) => Evaluation::Value(Value { a, b }),
        _ => Evaluation::Overflow,
    }
}

// The ratio p of two angles where it is also q, and otherwise one division of floats.
fn common_ratio(p: Option<Rational64>, q: Option<Rational64>, x: Value, y: Value) -> Evaluation
    requires { Sound x × Sound y }
    ensures { result ≡ or_overflow p (λ f. or_overflow q (λ g. common_ratio x y f g)) }
{
    let (Some(f), Some(g)) = (p, q) else {
        return Evaluation::Overflow;
    };
    if f == g {
        rational_value(f)
    } else {
        x.approximate_div(y)
    }
}

// The k-th root of a power. No root is taken with index 1, or of 1.
#[tactic(auto, using(crate::proofs::SoundLaws::extract_sound), unfolding(crate::specs::Value::extract_root))]
fn extract_root(x: Rational64, k: u64) -> Option<Rational64>
    requires { LowestTerms x × (0 < k) }
    ensures { ChecksTo (extract_root k x) result }
{
    if k == 1 || x == ONE {
        Some(x)
    } else if k < ROOT_INDEX_LIMIT {
        x.rat_root(k)
    } else {
        None
    }
}

// The angle of a power, which a negative exponent inverts.
fn inverted_if_negative(negative: bool, r: Rational64) -> Evaluation
    requires { LowestTerms r }
    ensures { result ≡ inverted negative r }
{
    if !negative {
        rational_value(r)
    } else if r.numer == 0 {
        Evaluation::DivideByZero
    } else {
        rational_value(r.recip())
    }
}

// The angle of the k-th root of a power, which a negative exponent inverts.
fn root_of_power(p: Option<Rational64>, k: u64, negative: bool) -> Evaluation
    requires { SoundOption p × (0 < k) }
    ensures { result ≡ or_overflow p (λ x. or_function_of_floats (extract_root k x) (inverted negative)) }
{
    let Some(x) = p else {
        return Evaluation::Overflow;
    };
    let Some(r) = extract_root(x, k) else {
        return Evaluation::FunctionOfFloats;
    };
    inverted_if_negative(negative, r)
}

// The angle ±n/d.
fn ratio_value(negative: bool, n: u64, d: u64) -> Evaluation
    ensures { result ≡ rational_value (record { negative = negative; numer = n; denom = d }) }
{
    rational_value(Rational64 {
        negative,
        numer: n,
        denom: d,
    })
}

// The sine of f·pi, 0 <= f < 2, where the source's list has it.
#[tactic(auto, unfolding(crate::specs::Value::sine_table))]
fn sine_table(f: Rational64) -> Evaluation
    ensures { result ≡ sine_table f }
{
    match (f.negative, f.numer, f.denom) {
        (false, 0, 1) => ratio_value(false, 0, 1),
        (false, 1 | 5, 6) => ratio_value(false, 1, 2),
        (false, 1, 2) => ratio_value(false, 1, 1),
        (false, 7 | 11, 6) => ratio_value(true, 1, 2),
        (false, 3, 2) => ratio_value(true, 1, 1),
        _ => Evaluation::FunctionOfFloats,
    }
}

// b without whole turns, from 0 to below 2.
#[tactic(auto, using(crate::proofs::SoundLaws::turn_sound, crate::proofs::SoundLaws::two_lowest), unfolding(crate::specs::Value::turn))]
fn without_whole_turns(b: Rational64) -> Option<Rational64>
    requires { LowestTerms b }
    ensures { ChecksTo (turn b) result }
{
    let half = b.checked_div(TWO)?;
    let f = half.fract().checked_mul(TWO)?;
    if f.negative {
        f.checked_add(TWO)
    } else {
        Some(f)
    }
}

impl Evaluation {
    // A further operation on the angle, if there is one: a refusal stands.
    fn and_then<F: FnOnce(Value) -> Evaluation>(self, operation: F) -> Evaluation
        requires { IfValue self (λ x. F.pre operation x) }
        ensures { GivesThen self (λ x. F.post operation x) result }
    {
        match self {
            Evaluation::Value(x) => operation(x),
            refusal => refusal,
        }
    }
}

impl Value {
    #[tactic(auto, using(crate::proofs::SoundLaws::zero_lowest, crate::proofs::SoundLaws::one_lowest))]
    pub fn pi() -> Value
        ensures { (result ≡ pi) × Sound result }
    {
        Value { a: ZERO, b: ONE }
    }

    #[tactic(auto, using(crate::proofs::SoundLaws::integer_sound), unfolding(crate::specs::Value::integer))]
    pub fn int(n: u64) -> Evaluation
        ensures { EvaluatesTo (integer n) result }
    {
        if n < MAGNITUDE_LIMIT {
            ratio_value(false, n, 1)
        } else {
            Evaluation::Overflow
        }
    }

    #[tactic(auto, unfolding(crate::specs::Value::into_float))]
    pub fn into_float(self) -> f32
        requires { Sound self }
        ensures { result ≡ into_float self }
    {
        float::ratio_f32(self.a) + f32::from_bits(PI_BITS) * float::ratio_f32(self.b)
    }

    #[tactic(auto, using(crate::proofs::SoundLaws::from_float_sound), unfolding(crate::specs::Value::from_float))]
    pub fn from_float(x: f32) -> Evaluation
        ensures { EvaluatesTo (from_float x) result }
    {
        match float::approximate_float(x) {
            Some(a) => rational_value(a),
            None => Evaluation::ApproximateFail(x),
        }
    }

    #[tactic(auto, using(crate::proofs::SoundLaws::sum_sound_value), unfolding(crate::specs::Value::value_sum))]
    pub fn checked_add(self, y: Value) -> Evaluation
        requires { Sound self × Sound y }
        ensures { EvaluatesTo (value_sum self y) result }
    {
        parts_or_overflow(self.a.checked_add(y.a), self.b.checked_add(y.b))
    }

    #[tactic(auto, using(crate::proofs::SoundLaws::difference_sound_value), unfolding(crate::specs::Value::value_difference))]
    pub fn checked_sub(self, y: Value) -> Evaluation
        requires { Sound self × Sound y }
        ensures { EvaluatesTo (value_difference self y) result }
    {
        parts_or_overflow(self.a.checked_sub(y.a), self.b.checked_sub(y.b))
    }

    // The rational part of a product, a·a' + b·b'·pi², if all its steps are in range.
    #[tactic(auto, using(crate::proofs::SoundLaws::pi_squared_lowest))]
    fn product_rational_part(self, y: Value) -> Option<Rational64>
        requires { Sound self × Sound y }
        ensures { ChecksTo (product_rational_part self y) result }
    {
        let c = self.b.checked_mul(y.b)?.checked_mul(PI_SQUARED)?;
        self.a.checked_mul(y.a)?.checked_add(c)
    }

    // The part of pi of a product, b·a' + a·b', if all its steps are in range.
    fn product_pi_part(self, y: Value) -> Option<Rational64>
        requires { Sound self × Sound y }
        ensures { ChecksTo (product_pi_part self y) result }
    {
        let c = self.b.checked_mul(y.a)?;
        c.checked_add(self.a.checked_mul(y.b)?)
    }

    #[tactic(auto, using(crate::proofs::SoundLaws::product_sound_value), unfolding(crate::specs::Value::value_product))]
    pub fn checked_mul(self, y: Value) -> Evaluation
        requires { Sound self × Sound y }
        ensures { EvaluatesTo (value_product self y) result }
    {
        parts_or_overflow(self.product_rational_part(y), self.product_pi_part(y))
    }

    #[tactic(auto, using(crate::proofs::SoundLaws::negation_sound, crate::proofs::SoundLaws::one_lowest, crate::proofs::SoundLaws::zero_lowest), unfolding(crate::specs::Value::negation))]
    pub fn checked_neg(self) -> Evaluation
        requires { Sound self }
        ensures { EvaluatesTo (negation self) result }
    {
        self.checked_mul(MINUS_ONE)
    }

    // The quotient by one division of floats, made a fraction.
    #[tactic(auto, using(crate::proofs::SoundLaws::approximate_sound), unfolding(crate::specs::Value::approximate_quotient))]
    fn approximate_div(self, y: Value) -> Evaluation
        requires { Sound self × Sound y }
        ensures { EvaluatesTo (approximate_quotient self y) result }
    {
        Value::from_float(self.into_float() / y.into_float())
    }

    #[tactic(auto, using(crate::proofs::SoundLaws::quotient_sound_value), unfolding(crate::specs::Value::value_quotient))]
    pub fn checked_div(self, y: Value) -> Evaluation
        requires { Sound self × Sound y }
        ensures { EvaluatesTo (value_quotient self y) result }
    {
        match (y.a.numer, y.b.numer) {
            (0, 0) => Evaluation::DivideByZero,
            (_, 0) => parts_or_overflow(self.a.checked_div(y.a), self.b.checked_div(y.a)),
            (0, _) if self.a.numer == 0 => self
                .b
                .checked_div(y.b)
                .map_or(Evaluation::Overflow, rational_value),
            (0, _) => self.approximate_div(y),
            _ => common_ratio(self.a.checked_div(y.a), self.b.checked_div(y.b), self, y),
        }
    }

    #[tactic(auto, using(crate::proofs::SoundLaws::power_sound_value), unfolding(crate::specs::Value::value_power))]
    pub fn checked_pow(self, y: Value) -> Evaluation
        requires { Sound self × Sound y }
        ensures { EvaluatesTo (value_power self y) result }
    {
        if self.b.numer == 0 && y.b.numer == 0 {
            root_of_power(self.a.checked_pow(y.a.numer), y.a.denom, y.a.negative)
        } else {
            Evaluation::FunctionOfFloats
        }
    }

    #[tactic(auto, using(crate::proofs::SoundLaws::square_root_sound), unfolding(crate::specs::Value::square_root))]
    pub fn checked_sqrt(self) -> Evaluation
        requires { Sound self }
        ensures { EvaluatesTo (square_root self) result }
    {
        if self.b.numer == 0 {
            self.a
                .rat_root(2)
                .map_or(Evaluation::FunctionOfFloats, rational_value)
        } else {
            Evaluation::FunctionOfFloats
        }
    }

    #[tactic(auto, using(crate::proofs::SoundLaws::sine_sound), unfolding(crate::specs::Value::sine))]
    pub fn checked_sin(self) -> Evaluation
        requires { Sound self }
        ensures { EvaluatesTo (sine self) result }
    {
        if self.a.numer == 0 {
            without_whole_turns(self.b).map_or(Evaluation::Overflow, sine_table)
        } else {
            Evaluation::FunctionOfFloats
        }
    }

    #[tactic(auto, using(crate::proofs::SoundLaws::cosine_sound, crate::proofs::SoundLaws::half_pi_sound), unfolding(crate::specs::Value::cosine))]
    pub fn checked_cos(self) -> Evaluation
        requires { Sound self }
        ensures { EvaluatesTo (cosine self) result }
    {
        self.checked_add(HALF_PI).and_then(|x| x.checked_sin())
    }

    #[tactic(auto, using(crate::proofs::SoundLaws::tangent_sound), unfolding(crate::specs::Value::tangent))]
    pub fn checked_tan(self) -> Evaluation
        requires { Sound self }
        ensures { EvaluatesTo (tangent self) result }
    {
        self.checked_sin()
            .and_then(|s| self.checked_cos().and_then(|c| s.checked_div(c)))
    }

    #[tactic(auto, unfolding(crate::specs::Value::exponential))]
    pub fn checked_exp(self) -> Evaluation
        ensures { EvaluatesTo (exponential self) result }
    {
        Evaluation::FunctionOfFloats
    }

    #[tactic(auto, unfolding(crate::specs::Value::logarithm))]
    pub fn checked_ln(self) -> Evaluation
        ensures { EvaluatesTo (logarithm self) result }
    {
        Evaluation::FunctionOfFloats
    }
}
