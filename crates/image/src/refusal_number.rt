// Document 01's numbers for why an operation does not do its work.
#[derive(Clone, Copy)]
pub enum RefusalNumber {
    // Check: what is wrong with an image.
    Contents = 1,
    Register = 2,
    GateEntry = 3,
    Form = 4,
    Argument = 5,
    Expression = 6,
    Sizes = 7,
    Upward = 8,
    // Run: what stops it.
    DivideByZero = 9,
    ApproximateFail = 10,
    NumericalOverflow = 11,
    OverlappingRegs = 12,
    FunctionOfFloats = 13,
    OutputFull = 14,
    ShortTrace = 15,
    // Tally: a figure that passes 4,294,967,295.
    FigureTooLarge = 16,
    // Reading records back: words that begin no whole record.
    NoRecord = 17,
}
