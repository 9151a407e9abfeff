//! How closely operators bind (C11 6.5).
ghost use Rattle.std.specs.Prelude.{◌≡◌, ◌≤◌, suc};
ghost use Rattle.cpc_tree.specs.ExprPrint.{level, is_loose, tier_below, mark_of, unary_mark};
ghost use Rattle.cpc_tree.specs.StmtPrint.{assigning_mark};
ghost use Rattle.cpc_printer.specs.Ranks.{rank_of};

use cpc_num::Op;
use cpc_tree::program::UnaryOp;
use cpc_tree::token::Punctuator;

/// How closely an expression binds, the closest first. The operands of a tier are of the tier below it; those of the
/// first are casts, which are tier 0.
#[derive(Clone, Copy)]
pub(crate) enum Rank {
    Primary,
    Postfix,
    Unary,
    Tier(u8),
    Whole,
}

/// The tier of the expressions with all operators of two operands.
pub(crate) const TOP_TIER: u8 = 10;

impl Rank {
    /// The place of the rank among them all.
    fn level(self) -> u16
        ensures { result ≡ level (rank_of self) }
    {
        match self {
            Rank::Primary => 0,
            Rank::Postfix => 1,
            Rank::Unary => 2,
            Rank::Tier(n) => 3 + u16::from(n),
            Rank::Whole => 14,
        }
    }

    /// Whether an expression of the rank stands where another is asked for only in parentheses.
    pub(crate) fn is_loose(self, asked: Rank) -> bool
        ensures { result ≡ is_loose (rank_of asked) (rank_of self) }
    {
        asked.level() < self.level()
    }
}

/// The mark of an operator.
pub(crate) fn mark_of(op: Op) -> Punctuator
    ensures { result ≡ mark_of op }
{
    match op {
        Op::Mul => Punctuator::Star,
        Op::Div => Punctuator::Slash,
        Op::Rem => Punctuator::Percent,
        Op::Add => Punctuator::Plus,
        Op::Sub => Punctuator::Minus,
        Op::Shl => Punctuator::ShiftLeft,
        Op::Shr => Punctuator::ShiftRight,
        Op::Lt => Punctuator::Less,
        Op::Le => Punctuator::LessEqual,
        Op::Gt => Punctuator::Greater,
        Op::Ge => Punctuator::GreaterEqual,
        Op::Eq => Punctuator::EqualEqual,
        Op::Ne => Punctuator::NotEqual,
        Op::BitAnd => Punctuator::Ampersand,
        Op::BitXor => Punctuator::Caret,
        Op::BitOr => Punctuator::Bar,
    }
}

/// The tier of an operator's right operand.
pub(crate) fn tier_below(op: Op) -> u8
    ensures tier { result ≡ tier_below op }
    ensures low { result ≤ 7 }
{
    match op {
        Op::Mul | Op::Div | Op::Rem => 0,
        Op::Add | Op::Sub => 1,
        Op::Shl | Op::Shr => 2,
        Op::Lt | Op::Le | Op::Gt | Op::Ge => 3,
        Op::Eq | Op::Ne => 4,
        Op::BitAnd => 5,
        Op::BitXor => 6,
        Op::BitOr => 7,
    }
}

/// The tier of an operator, which is its left operand's too.
pub(crate) fn tier_of(op: Op) -> u8
    ensures { result ≡ suc (tier_below op) }
{
    tier_below(op) + 1
}

/// The mark of an operator of one operand.
pub(crate) fn unary_mark(op: UnaryOp) -> Punctuator
    ensures { result ≡ unary_mark op }
{
    match op {
        UnaryOp::Minus => Punctuator::Minus,
        UnaryOp::Plus => Punctuator::Plus,
        UnaryOp::Not => Punctuator::Exclamation,
        UnaryOp::Complement => Punctuator::Tilde,
        UnaryOp::Dereference => Punctuator::Star,
        UnaryOp::AddressOf => Punctuator::Ampersand,
    }
}

/// The mark of an assignment by an operator, if there is one: comparisons have none.
pub(crate) fn assigning_mark(op: Op) -> Option<Punctuator>
    ensures { result ≡ assigning_mark op }
{
    match op {
        Op::Mul => Some(Punctuator::StarEqual),
        Op::Div => Some(Punctuator::SlashEqual),
        Op::Rem => Some(Punctuator::PercentEqual),
        Op::Add => Some(Punctuator::PlusEqual),
        Op::Sub => Some(Punctuator::MinusEqual),
        Op::Shl => Some(Punctuator::ShiftLeftEqual),
        Op::Shr => Some(Punctuator::ShiftRightEqual),
        Op::BitAnd => Some(Punctuator::AmpersandEqual),
        Op::BitXor => Some(Punctuator::CaretEqual),
        Op::BitOr => Some(Punctuator::BarEqual),
        Op::Lt | Op::Le | Op::Gt | Op::Ge | Op::Eq | Op::Ne => None,
    }
}
