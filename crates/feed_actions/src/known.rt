//! How many rows arrive, as far as that is known without reading one.
ghost use Rattle.std.specs.Prelude.{◌≡◌, ◌<◌, ◌≤◌, ◌-◌, ◌^◌, ℕ, min, length, Some, IfSome, OnOk, OnErr};
ghost use Rattle.row_defs.specs.Limits.{most_rows};
ghost use Rattle.lop_chain.specs.Ops.{ops_in};
ghost use Rattle.lop_chain.specs.Operands.{root_in};
ghost use Rattle.row_growth.specs.Growth.{TellsExtent};
ghost use Rattle.scatter.specs.Lines.{HasRoot};
ghost use Rattle.scatter.specs.Stocks.{lines_of};
ghost use Rattle.scatter.specs.Told.{arriving};
ghost use Rattle.feed_actions.specs.Counting.{known_extent, IsTooLong};

use crate::counter::TooManyRows;
use crate::counting::few;
use lop_chain::Operand;
use row_defs::limits::LONGEST_TEXT;
use row_growth::{Extent, extent_of};
use scatter::{Net, Stock};

/// How many rows arrive, as far as that is known without reading one: exactly where the chain makes as many rows of each.
pub fn known_extent<X: Net>(stock: &Stock<X>, operand: &Operand) -> Extent
    requires { HasRoot (lines_of stock.now) (root_in operand.now.root) }
    ensures value { result ≡ known_extent (lines_of stock.now) (root_in operand.now.root) (ops_in operand.now.chain.items) }
    ensures tells { TellsExtent result (length (arriving (lines_of stock.now) (root_in operand.now.root) (ops_in operand.now.chain.items))) }
{
    let rows = stock.row_count(operand.root);
    extent_of(rows, LONGEST_TEXT, operand.chain.as_slice())
}

/// How many rows arrive, or `u64::MAX` where they are more, where the chain makes as many rows of each.
pub(crate) fn known_count<X: Net>(stock: &Stock<X>, operand: &Operand) -> Option<u64>
    requires { HasRoot (lines_of stock.now) (root_in operand.now.root) }
    ensures count { IfSome result (λ n. n
        ≡ min (length (arriving (lines_of stock.now) (root_in operand.now.root) (ops_in operand.now.chain.items))) (2 ^ 64 - 1)) }
    ensures exact { IfSome result (λ n. known_extent (lines_of stock.now) (root_in operand.now.root) (ops_in operand.now.chain.items) ≡ Extent.Exactly n) }
    ensures known { (n : ℕ) → known_extent (lines_of stock.now) (root_in operand.now.root) (ops_in operand.now.chain.items) ≡ Extent.Exactly n
        → result ≡ Some n }
{
    match known_extent(stock, operand) {
        Extent::Exactly(rows) => Some(rows),
        Extent::AtMost(_) => None,
    }
}

/// Sees, where it is known at once how many rows arrive, that they aren't more than may.
pub(crate) fn check_known<X: Net>(stock: &Stock<X>, operand: &Operand) -> Result<(), TooManyRows>
    requires { HasRoot (lines_of stock.now) (root_in operand.now.root) }
    ensures ok { OnOk result (IsTooLong (lines_of stock.now) (root_in operand.now.root) (ops_in operand.now.chain.items) → ⊥) }
    ensures long { OnErr result (IsTooLong (lines_of stock.now) (root_in operand.now.root) (ops_in operand.now.chain.items)) }
    ensures many { OnErr result (most_rows
        < length (arriving (lines_of stock.now) (root_in operand.now.root) (ops_in operand.now.chain.items))) }
{
    match known_extent(stock, operand) {
        Extent::Exactly(rows) => {
            few(rows)?;
            Ok(())
        }
        Extent::AtMost(_) => Ok(()),
    }
}
