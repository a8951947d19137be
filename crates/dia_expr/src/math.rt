//! What is made of numbers.
ghost use Rattle.std.specs.Prelude.{◌≡◌};
ghost use Rattle.row_defs.specs.Values.{math_value, flag, holds};
ghost use Rattle.dia_expr.specs.Exprs.{math_in, comparison_in};

use crate::expr::{Comparison, Math};
use std::cmp::Ordering;

/// What is made of two numbers.
#[inline(always)]
pub(crate) fn math(op: Math, a: u64, b: u64) -> u64
    ensures { result ≡ math_value (math_in op) a b }
{
    match op {
        Math::Add => a.wrapping_add(b),
        Math::Sub => a.wrapping_sub(b),
        Math::Mul => a.wrapping_mul(b),
        Math::Div => a.checked_div(b).unwrap_or(0),
        Math::Mod => a.checked_rem(b).unwrap_or(0),
        Math::Least => a.min(b),
        Math::Most => a.max(b),
        Math::And => a & b,
        Math::Or => a | b,
        Math::Xor => a ^ b,
    }
}

/// Whether two fields in this order are so: 1 or 0.
#[inline]
pub(crate) fn compared(op: Comparison, order: Ordering) -> u64
    ensures { result ≡ flag (holds (comparison_in op) order) }
{
    let holds = match op {
        Comparison::Eq => order.is_eq(),
        Comparison::Lt => order.is_lt(),
        Comparison::Le => order.is_le(),
    };
    u64::from(holds)
}
