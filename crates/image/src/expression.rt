// What the words of an expression say.
ghost use Rattle.std.specs.Prelude.{◌≡◌, ◌≤◌};
ghost use Rattle.model.specs.Image.{expression, expression_of};
ghost use Rattle.image.specs.Layout.{Small};
ghost use Rattle.image.specs.Entries.{expr_read};

use crate::Image;

// An operation on two operands.
#[derive(Clone, Copy)]
pub enum Binop {
    Add,
    Sub,
    Mul,
    Div,
    Pow,
}

// An operation on one operand.
#[derive(Clone, Copy)]
pub enum Unop {
    Neg,
    Sin,
    Cos,
    Tan,
    Exp,
    Ln,
    Sqrt,
}

// An expression of a known kind: its operands are numbers of entries.
#[derive(Clone, Copy)]
pub enum Expr {
    Pi,
    Real(u64),
    Int(u64),
    Var(u64),
    Binary(Binop, u64, u64),
    Unary(Unop, u64),
}

impl Expr {
    // The expression of a kind and the two words behind it, if the kind is known.
    #[tactic(auto, unfolding(model::specs::Image::expression_of))]
    pub fn of_words(kind: u64, a: u64, b: u64) -> Option<Expr>
        ensures { expr_read result ≡ expression_of kind a b }
    {
        match kind {
            0 => Some(Expr::Pi),
            1 => Some(Expr::Real(a)),
            2 => Some(Expr::Int(a)),
            3 => Some(Expr::Var(a)),
            4 => Some(Expr::Binary(Binop::Add, a, b)),
            5 => Some(Expr::Binary(Binop::Sub, a, b)),
            6 => Some(Expr::Binary(Binop::Mul, a, b)),
            7 => Some(Expr::Binary(Binop::Div, a, b)),
            8 => Some(Expr::Binary(Binop::Pow, a, b)),
            9 => Some(Expr::Unary(Unop::Neg, a)),
            10 => Some(Expr::Unary(Unop::Sin, a)),
            11 => Some(Expr::Unary(Unop::Cos, a)),
            12 => Some(Expr::Unary(Unop::Tan, a)),
            13 => Some(Expr::Unary(Unop::Exp, a)),
            14 => Some(Expr::Unary(Unop::Ln, a)),
            15 => Some(Expr::Unary(Unop::Sqrt, a)),
            _ => None,
        }
    }
}

impl Image<'_> {
    // The expression of a number, if it is of a known kind.
    #[tactic(auto, unfolding(model::specs::Image::expression))]
    pub fn expression(&self, e: u64) -> Option<Expr>
        requires { Small e }
        ensures { expr_read result ≡ expression self.now.words.now e }
    {
        let at = self.expression_at(e);
        Expr::of_words(self.word(at), self.word(at + 1), self.word(at + 2))
    }
}
