// Works out the angles of an accepted image: expressions, and the parameters of a call.
#![tactic(auto)]

ghost use Rattle.std.specs.Prelude.{◌≡◌, ℕ, ◌<◌, ◌≤◌, length, get_or, List, false};
ghost use Rattle.value.specs.Value.{Sound};
ghost use Rattle.value.specs.Promise.{EvaluatesTo, SoundEvaluation};
ghost use Rattle.model.specs.Evaluate.{evaluate, binary, unary, zero_value};
ghost use Rattle.model.specs.Image.{expression, expression_at};
ghost use Rattle.model.specs.Steps.{parameter_values};
ghost use Rattle.model.specs.Limits.{most_levels, most_words};
ghost use Rattle.image.specs.Entries.{as_binop, as_unop, as_expr};
ghost use Rattle.image.specs.Layout.{Small};
ghost use Rattle.record_writer.specs.Promise.{SoundAngles};
ghost use Rattle.expression.specs.KeptValues.{known_value, operands_within, from_constants, ConstantsKept, ValuesKept, AngleContext, Evaluated};
ghost use Rattle.expression.specs.Operands.{AcceptedExpression, NoValue, RefusalOf, RefusedAt, AngleGiven, ParametersGiven};
ghost use Rattle.expression.specs.NamedExpressions.{named_at, NamesExpressions};
ghost use Rattle.value.specs.declared.Value.{Value};

use image::{Binop, Expr, Image, Unop};
use rational::Rational64;
use record_writer::{LinearizeError, LinearizeErrorKind, Position};
use value::{Evaluation, Value};

// ---- operations

// An operation on two angles.
#[tactic(auto, unfolding(model::specs::Evaluate::binary))]
fn binary(op: Binop, x: Value, y: Value) -> Evaluation
    requires { Sound x × Sound y }
    ensures { EvaluatesTo (binary (as_binop op) x y) result }
{
    match op {
        Binop::Add => x.checked_add(y),
        Binop::Sub => x.checked_sub(y),
        Binop::Mul => x.checked_mul(y),
        Binop::Div => x.checked_div(y),
        Binop::Pow => x.checked_pow(y),
    }
}

// An operation on one angle.
#[tactic(auto, unfolding(model::specs::Evaluate::unary))]
fn unary(op: Unop, x: Value) -> Evaluation
    requires { Sound x }
    ensures { EvaluatesTo (unary (as_unop op) x) result }
{
    match op {
        Unop::Neg => x.checked_neg(),
        Unop::Sin => x.checked_sin(),
        Unop::Cos => x.checked_cos(),
        Unop::Tan => x.checked_tan(),
        Unop::Exp => x.checked_exp(),
        Unop::Ln => x.checked_ln(),
        Unop::Sqrt => x.checked_sqrt(),
    }
}

// ---- values that are kept: a constant is worked out once in a run, any other operand once in an expression

// What is kept of an expression: nothing, the value that it had in the last evaluation that came to it, or the value of a constant.
#[derive(Clone, Copy)]
pub enum KeptValue {
    Nothing,
    Once(Value),
    Constant(Value),
}

// The value that is known of an entry: a constant's, or one that is marked as found in this evaluation. The marks stand beside the values, since only
// they are cleared for each evaluation: 128 marks are 128 bytes and 128 values are 7 KiB, which would take as long to clear as many an evaluation takes.
fn known_value(known: &[bool], kept_values: &[KeptValue], e: u64) -> Option<Value>
    requires { (e < length known.now) × (e < length kept_values.now) }
    ensures { result ≡ known_value (get_or known.now e false) (get_or kept_values.now e KeptValue.Nothing) }
{
    match kept_values[e as usize] {
        KeptValue::Nothing => None,
        KeptValue::Once(x) => { if known[e as usize] { Some(x) } else { None } }
        KeptValue::Constant(x) => Some(x),
    }
}

// Whether an entry is a constant for all that is known of its operands: no parameter goes into it.
fn is_constant(kept_values: &[KeptValue], entry: Expr) -> bool
    requires { operands_within (length kept_values.now) (as_expr entry) }
    ensures { result ≡ from_constants kept_values.now (as_expr entry) }
{
    match entry {
        Expr::Pi | Expr::Real(_) | Expr::Int(_) => true,
        Expr::Var(_) => false,
        Expr::Binary(_, a, b) => {
            matches!(kept_values[a as usize], KeptValue::Constant(_))
                && matches!(kept_values[b as usize], KeptValue::Constant(_))
        }
        Expr::Unary(_, a) => matches!(kept_values[a as usize], KeptValue::Constant(_)),
    }
}

// Keeps what an entry is evaluated to, if it is a value, and hands the evaluation on.
fn keep_evaluation(
    known: &mut [bool],
    kept_values: &mut [KeptValue],
    e: u64,
    entry: Expr,
    r: Evaluation,
) -> Evaluation
    requires { (e < length known.old) × (e < length kept_values.old) × operands_within (length kept_values.old) (as_expr entry) }
    ensures { (image : List ℕ) → AcceptedExpression image e → as_expr entry ≡ expression image e → (angles : List Value)
        → Evaluated image angles e r known.old kept_values.old
        → Evaluated image angles e result known.new kept_values.new }
{
    let Evaluation::Value(x) = r else {
        return r;
    };
    let i = e as usize;
    if is_constant(kept_values, entry) {
        kept_values[i] = KeptValue::Constant(x);
    } else {
        kept_values[i] = KeptValue::Once(x);
        known[i] = true;
    }
    r
}

// ---- expressions
// The image, the angles and the table of what is kept go side by side: the table is written, and each function that took a struct of the three would have to promise
// that it lends the same table.
// `AcceptedExpression` speaks of a number by which an entry, a statement or a call names an expression: a struct of the number with that fact would be made at each such name.

// The angle of an expression, read back if it is known, or why it has none. An operand has a smaller number than its user. A refusal ends the whole evaluation, so that only values are kept.
fn evaluate(
    image: &Image<'_>,
    angles: &[Value; image::FRAME_ANGLES],
    known: &mut [bool],
    kept_values: &mut [KeptValue],
    e: u64,
) -> Evaluation
    requires { SoundAngles angles.now
        × AcceptedExpression image.now.words.now e
        × ValuesKept image.now.words.now angles.now known.old kept_values.old }
    ensures { Evaluated image.now.words.now angles.now e result known.new kept_values.new }
{
    if let Some(x) = known_value(known, kept_values, e) {
        return Evaluation::Value(x);
    }
    let Some(entry) = image.expression(e) else {
        unreachable!()
    };
    let r = match entry {
        Expr::Pi => Evaluation::Value(Value::pi()),
        Expr::Real(bits) => Value::from_float(float::f32_from_bits(bits)),
        Expr::Int(n) => Value::int(n),
        Expr::Var(i) => Evaluation::Value(angles[i as usize]),
        Expr::Binary(op, a, b) => {
            let left = evaluate(image, angles, known, kept_values, a);
            let Evaluation::Value(x) = left else {
                return left;
            };
            let right = evaluate(image, angles, known, kept_values, b);
            let Evaluation::Value(y) = right else {
                return right;
            };
            binary(op, x, y)
        }
        Expr::Unary(op, a) => {
            let operand = evaluate(image, angles, known, kept_values, a);
            let Evaluation::Value(x) = operand else {
                return operand;
            };
            unary(op, x)
        }
    };
    keep_evaluation(known, kept_values, e, entry, r)
}

// The angle of an expression that is worked out entry by entry, with marks for as many expressions as N, where no value is known but those of constants.
fn evaluate_entries<const N: usize>(
    image: &Image<'_>,
    angles: &[Value; image::FRAME_ANGLES],
    kept_values: &mut [KeptValue],
    e: u64,
) -> Evaluation
    requires { AngleContext image.now.words.now angles.now kept_values.old
        × AcceptedExpression image.now.words.now e
        × (image.now.layout.expressions ≤ N)
        × (N ≤ most_words) }
    ensures { EvaluatesTo (evaluate image.now.words.now angles.now most_levels e) result × ConstantsKept image.now.words.now kept_values.new }
{
    let mut known = [false; N];
    evaluate(image, angles, &mut known, kept_values, e)
}

// The angle of an expression where no value is known but those of constants. A constant, and a parameter alone, are read straight away.
// The choice between the two numbers of marks is no function of its own: it would take what is done with the marks as a closure, and no closure has a const parameter.
fn evaluate_anew(
    image: &Image<'_>,
    angles: &[Value; image::FRAME_ANGLES],
    kept_values: &mut [KeptValue],
    e: u64,
) -> Evaluation
    requires { AngleContext image.now.words.now angles.now kept_values.old × AcceptedExpression image.now.words.now e }
    ensures { EvaluatesTo (evaluate image.now.words.now angles.now most_levels e) result × ConstantsKept image.now.words.now kept_values.new }
{
    if let KeptValue::Constant(x) = kept_values[e as usize] {
        return Evaluation::Value(x);
    }
    if let Some(Expr::Var(i)) = image.expression(e) {
        return Evaluation::Value(angles[i as usize]);
    }
    if image.layout.expressions <= image::FEW_EXPRESSIONS as u64 {
        return evaluate_entries::<{ image::FEW_EXPRESSIONS }>(image, angles, kept_values, e);
    }
    evaluate_entries::<{ image::MOST_EXPRESSIONS }>(image, angles, kept_values, e)
}

// ---- the parameters of a call

// The angle 0, which the parameters that a call lacks have.
pub fn zero() -> Value
    ensures { (result ≡ zero_value) × Sound result }
{
    let fraction = Rational64 {
        negative: false,
        numer: 0,
        denom: 1,
    };
    Value {
        a: fraction,
        b: fraction,
    }
}

// Why a run ends at an expression at a place that has no angle.
fn refusal(r: Evaluation, place: u64) -> LinearizeErrorKind
    requires { NoValue r }
    ensures { RefusalOf r place result }
{
    match r {
        Evaluation::DivideByZero => LinearizeErrorKind::DivideByZero(place),
        Evaluation::ApproximateFail(f) => LinearizeErrorKind::ApproximateFail(place, f),
        Evaluation::FunctionOfFloats => LinearizeErrorKind::FunctionOfFloats(place),
        Evaluation::Overflow => LinearizeErrorKind::NumericalOverflow(place),
        Evaluation::Value(_) => unreachable!(),
    }
}

// The refusal of an expression, whose evaluation came to no angle.
fn refused(image: &Image<'_>, e: u64, r: Evaluation, at: Position) -> LinearizeError
    requires { Small e × NoValue r }
    ensures { RefusedAt r (expression_at image.now.words.now e) at result }
{
    let kind = refusal(r, image.expression_at(e));
    LinearizeError { kind, at }
}

// The angle of an expression, or the refusal with which a run ends there.
pub fn angle_of(
    image: &Image<'_>,
    angles: &[Value; image::FRAME_ANGLES],
    kept_values: &mut [KeptValue],
    e: u64,
    at: Position,
) -> Result<Value, LinearizeError>
    requires { AngleContext image.now.words.now angles.now kept_values.old × AcceptedExpression image.now.words.now e }
    ensures { AngleGiven (evaluate image.now.words.now angles.now most_levels e) (expression_at image.now.words.now e) at result
        × ConstantsKept image.now.words.now kept_values.new }
{
    let r = evaluate_anew(image, angles, kept_values, e);
    let Evaluation::Value(x) = r else {
        return Err(refused(image, e, r, at));
    };
    Ok(x)
}

// The angles of the n expressions that the words from a place on name, the others 0, or the refusal of the first that has none.
pub fn parameter_values(
    image: &Image<'_>,
    angles: &[Value; image::FRAME_ANGLES],
    kept_values: &mut [KeptValue],
    place: u64,
    n: u64,
    at: Position,
) -> Result<[Value; image::FRAME_ANGLES], LinearizeError>
    requires { AngleContext image.now.words.now angles.now kept_values.old × NamesExpressions image.now.words.now place n }
    ensures { ParametersGiven (parameter_values image.now.words.now angles.now (named_at image.now.words.now place n)) n at result
        × ConstantsKept image.now.words.now kept_values.new }
{
    let mut values = [zero(); image::FRAME_ANGLES];
    for i in 0..n {
        let e = image.word(place + i);
        values[i as usize] = angle_of(image, angles, kept_values, e, at)?;
    }
    Ok(values)
}
