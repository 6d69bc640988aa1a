// The operations that a line of numbers names, each by its number.

// An operation on one angle or two. These are not the Binop and Unop of image: the vectors try what value does, without an image.
#[derive(Clone, Copy)]
pub enum AngleOperation {
    Add,
    Sub,
    Mul,
    Div,
    Pow,
    Neg,
    Sin,
    Cos,
    Tan,
    Exp,
    Ln,
    Sqrt,
}

// An operation on one whole number or two.
#[derive(Clone, Copy)]
pub enum NumberOperation {
    FromFloat,
    NearestFloat,
    Gcd,
    IntRoot,
}

#[derive(Clone, Copy)]
pub enum Operation {
    OnAngles(AngleOperation),
    IntoFloat,
    OnNumbers(NumberOperation),
}

// That no operation has a number.
#[derive(Clone, Copy)]
pub struct UnknownOperation;

impl TryFrom<u64> for Operation {
    type Error = UnknownOperation;

    fn try_from(number: u64) -> Result<Operation, UnknownOperation> {
        match number {
            1 => Ok(Operation::OnAngles(AngleOperation::Add)),
            2 => Ok(Operation::OnAngles(AngleOperation::Sub)),
            3 => Ok(Operation::OnAngles(AngleOperation::Mul)),
            4 => Ok(Operation::OnAngles(AngleOperation::Div)),
            5 => Ok(Operation::OnAngles(AngleOperation::Pow)),
            6 => Ok(Operation::OnAngles(AngleOperation::Neg)),
            7 => Ok(Operation::OnAngles(AngleOperation::Sin)),
            8 => Ok(Operation::OnAngles(AngleOperation::Cos)),
            9 => Ok(Operation::OnAngles(AngleOperation::Tan)),
            10 => Ok(Operation::OnAngles(AngleOperation::Exp)),
            11 => Ok(Operation::OnAngles(AngleOperation::Ln)),
            12 => Ok(Operation::OnAngles(AngleOperation::Sqrt)),
            13 => Ok(Operation::IntoFloat),
            14 => Ok(Operation::OnNumbers(NumberOperation::FromFloat)),
            15 => Ok(Operation::OnNumbers(NumberOperation::NearestFloat)),
            16 => Ok(Operation::OnNumbers(NumberOperation::Gcd)),
            17 => Ok(Operation::OnNumbers(NumberOperation::IntRoot)),
            _ => Err(UnknownOperation),
        }
    }
}
