// A line of numbers: an operation, two angles, a case and the angle of the result.
ghost use Rattle.std.specs.Prelude.{◌≡◌, true};
ghost use Rattle.rational.specs.Rational.{LowestTerms};
ghost use Rattle.value.specs.Value.{Sound};

use crate::number_line;
use crate::number_line::{NumberResult, Vector};
use crate::operation::{AngleOperation, NumberOperation, Operation};
use image::RefusalNumber;
use rational::Rational64;
use value::{Evaluation, Value};

fn in_lowest_terms(x: Rational64) -> bool
    ensures { result ≡ true → LowestTerms x }
{
    (x.numer > 0 || !x.negative)
        && x.denom > 0
        && x.denom < rational::MAGNITUDE_LIMIT
        && x.numer < rational::MAGNITUDE_LIMIT
        && rational::gcd(x.numer, x.denom) == 1
}

fn is_sound(x: Value) -> bool
    ensures { result ≡ true → Sound x }
{
    in_lowest_terms(x.a) && in_lowest_terms(x.b)
}

// Whether an operation on angles takes those of a line.
fn are_sound(v: Vector) -> bool
    ensures { result ≡ true → Sound v.x × Sound v.y }
{
    is_sound(v.x) && is_sound(v.y)
}

// A result of one number: the other three are 0.
fn one_number(case: u64, n: u64) -> NumberResult {
    let zero = Rational64 {
        negative: false,
        numer: 0,
        denom: 0,
    };
    NumberResult {
        case,
        value: Value {
            a: Rational64 { numer: n, ..zero },
            b: zero,
        },
    }
}

fn float_result(case: u64, x: f32) -> NumberResult {
    one_number(case, float::f32_to_bits(x) as u64)
}

impl From<Evaluation> for NumberResult {
    fn from(evaluation: Evaluation) -> NumberResult {
        match evaluation {
            Evaluation::Value(value) => NumberResult { case: 0, value },
            Evaluation::DivideByZero => one_number(RefusalNumber::DivideByZero as u64, 0),
            Evaluation::ApproximateFail(f) => {
                float_result(RefusalNumber::ApproximateFail as u64, f)
            }
            Evaluation::Overflow => one_number(RefusalNumber::NumericalOverflow as u64, 0),
            Evaluation::FunctionOfFloats => {
                one_number(RefusalNumber::FunctionOfFloats as u64, 0)
            }
        }
    }
}

// What an operation makes of the angles of a line.
fn evaluated(operation: AngleOperation, v: Vector) -> Evaluation
    requires { Sound v.x × Sound v.y }
{
    match operation {
        AngleOperation::Add => v.x.checked_add(v.y),
        AngleOperation::Sub => v.x.checked_sub(v.y),
        AngleOperation::Mul => v.x.checked_mul(v.y),
        AngleOperation::Div => v.x.checked_div(v.y),
        AngleOperation::Pow => v.x.checked_pow(v.y),
        AngleOperation::Neg => v.x.checked_neg(),
        AngleOperation::Sin => v.x.checked_sin(),
        AngleOperation::Cos => v.x.checked_cos(),
        AngleOperation::Tan => v.x.checked_tan(),
        AngleOperation::Exp => v.x.checked_exp(),
        AngleOperation::Ln => v.x.checked_ln(),
        AngleOperation::Sqrt => v.x.checked_sqrt(),
    }
}

fn word_result(word: u64) -> Option<NumberResult> {
    if word < 0x1_0000_0000 {
        Some(NumberResult::from(Value::from_float(float::f32_from_bits(word))))
    } else {
        None
    }
}

fn root_result(k: u64, v: u64) -> Option<NumberResult> {
    if k < 2 || v >= rational::MAGNITUDE_LIMIT {
        return None;
    }
    match rational::int_root(v, k) {
        Some(r) => Some(one_number(0, r)),
        None => Some(one_number(1, 0)),
    }
}

// The result of an operation on the whole numbers of a line: each is the numerator of an angle, and has no sign.
fn numbers_result(operation: NumberOperation, v: Vector) -> Option<NumberResult> {
    if v.x.a.negative || v.y.a.negative {
        return None;
    }
    let n = v.x.a.numer;
    let m = v.y.a.numer;
    match operation {
        NumberOperation::FromFloat => word_result(n),
        NumberOperation::NearestFloat => Some(float_result(0, float::nearest_f32(n))),
        NumberOperation::Gcd => Some(one_number(0, rational::gcd(n, m))),
        NumberOperation::IntRoot => root_result(n, m),
    }
}

// The result of an operation on operands that it takes.
fn computed(v: Vector) -> Option<NumberResult> {
    match v.operation? {
        Operation::OnAngles(operation) if are_sound(v) => {
            Some(NumberResult::from(evaluated(operation, v)))
        }
        Operation::IntoFloat if are_sound(v) => Some(float_result(0, v.x.into_float())),
        Operation::OnAngles(_) | Operation::IntoFloat => None,
        Operation::OnNumbers(operation) => numbers_result(operation, v),
    }
}

fn agrees(v: Vector) -> bool {
    computed(v) == Some(v.expected)
}

// Replays a line.
pub fn replay_line(text: &[u8]) -> Option<bool> {
    let v = number_line::parse(text)?;
    Some(agrees(v))
}
