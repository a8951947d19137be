//! Rows pushed through chains.
ghost use Rattle.std.specs.Prelude.{◌≡◌, ◌∷◌, [], false, IfOk};
ghost use Rattle.row_defs.specs.declared.kind.Kind.TheVariants.{Int, Text};
ghost use Rattle.row_defs.specs.Rows.{kinds_of};
ghost use Rattle.row_defs.specs.Values.{column, number, math};
ghost use Rattle.row_defs.specs.LocalOps.{AreSoundOps};
ghost use Rattle.dia_expr.specs.Exprs.{expr_in, math_in};
ghost use Rattle.dia_item.specs.Lent.{row_in_ref};
ghost use Rattle.lop_chain.specs.Rows.{Kinds};
ghost use Rattle.lop_chain.specs.Chains.{chain_ops};
ghost use Rattle.lop_chain.specs.Ops.{ops_in};

mod sinks;

use dia_edge::NoMemory;
use dia_expr::{Expr, Math};
use dia_item::{Field, OwnRow, RowBuf, RowRef};
use lop_chain::*;
use sinks::{Keep, Refused, Tally};
use std::alloc::Global;
use std::sync::Wait;
use std::test::Fail;

/// A number made of column 0 and this one.
fn of_column(alloc: Global, op: Math, n: u64) -> Result<Expr, NoMemory>
    ensures { IfOk result (λ e. expr_in e ≡ math (math_in op) (column 0) (number n)) }
{
    let left = Box::new(alloc, Expr::Column(0))?;
    let right = Box::new(alloc, Expr::Number(n))?;
    Ok(Expr::Math(op, left, right))
}

/// Of each odd number 3 times the number, and the next three.
fn odd_times_3(alloc: Global) -> Result<Vec<ScriptOp>, NoMemory>
    ensures { IfOk result (λ ops. AreSoundOps (Int ∷ []) (ops_in ops.items) (Int ∷ [])) }
{
    let mut columns = Vec::new(alloc);
    columns.push(of_column(alloc, Math::Mul, 3)?)?;
    let mut ops = Vec::new(alloc);
    ops.push(ScriptOp::Filter(of_column(alloc, Math::Mod, 2)?))?;
    ops.push(ScriptOp::Map(columns))?;
    ops.push(ScriptOp::Spread {
        column: 0,
        count: 4,
    })?;
    Ok(ops)
}

/// Pushes the numbers below `count`, each as a row.
fn push_numbers<R: Wait>(
    rt: &R,
    chain: &mut Chain,
    row: &mut RowBuf,
    count: u64,
    into: &mut Tally,
) -> Result<(), Refused>
    requires fits { AreSoundOps (Int ∷ []) (chain_ops chain.old) (Int ∷ []) }
    requires is_open { into.old.shut ≡ false }
{
    for n in 0..count {
        row.clear();
        row.push_int(n);
        match chain.push(rt, row.row(), &mut (), into) {
            Ok(()) => {}
            Err(refused) => return Err(refused),
        }
    }
    Ok(())
}

#[test]
fn a_thousand_rows_are_filtered_mapped_and_spread(rt: HostRuntime) -> Result<(), Fail> {
    let mut row = RowBuf::new(rt.alloc())?;
    for (most, rows, is_ok) in [(5000, 2000, true), (2000, 2000, true), (1999, 1999, false)] {
        let ops = odd_times_3(rt.alloc())?;
        let mut chain = Chain::new(rt.alloc(), copy_ops(rt.alloc(), ops.as_slice())?)?;
        let mut into = Tally {
            rows: 0,
            sum: 0,
            most,
            shut: false,
        };
        let pushed = push_numbers(&rt, &mut chain, &mut row, 1000, &mut into);
        assert_eq!(rt; pushed.is_ok(), is_ok);
        assert_eq!(rt; into.rows, rows);
        assert!(rt; !is_ok || into.sum == 3_003_000);
    }
    Ok(())
}

/// Each word of column 0, and with each of them column 1 and the next two numbers.
fn words_then_spread(alloc: Global) -> Result<Vec<ScriptOp>, NoMemory>
    ensures { IfOk result (λ ops. AreSoundOps (Text ∷ Int ∷ []) (ops_in ops.items) (Text ∷ Int ∷ [])) }
{
    let mut ops = Vec::new(alloc);
    ops.push(ScriptOp::Words { column: 0 })?;
    ops.push(ScriptOp::Spread {
        column: 1,
        count: 3,
    })?;
    Ok(ops)
}

/// The same by two chains, one after the other.
fn words_and_spread(alloc: Global) -> Result<Then<Chain, Chain>, NoMemory>
    ensures first { IfOk result (λ both. AreSoundOps (Text ∷ Int ∷ []) (chain_ops both.first) (Text ∷ Int ∷ [])) }
    ensures second { IfOk result (λ both. AreSoundOps (Text ∷ Int ∷ []) (chain_ops both.second) (Text ∷ Int ∷ [])) }
{
    let mut words = Vec::new(alloc);
    words.push(ScriptOp::Words { column: 0 })?;
    let mut spread = Vec::new(alloc);
    spread.push(ScriptOp::Spread {
        column: 1,
        count: 3,
    })?;
    Ok(Then {
        first: Chain::new(alloc, words)?,
        second: Chain::new(alloc, spread)?,
    })
}

/// A row of a text and a number.
fn three_words_and_5(alloc: Global) -> Result<RowBuf, NoMemory>
    ensures { IfOk result (λ row. kinds_of row ≡ Text ∷ Int ∷ []) }
{
    let mut row = RowBuf::new(alloc)?;
    row.push_text(b" a bc\td");
    row.push_int(5);
    Ok(row)
}

/// What is made of it, in order.
const MADE: [(&[u8], u64); 9] = [
    (b"a", 5),
    (b"a", 6),
    (b"a", 7),
    (b"bc", 5),
    (b"bc", 6),
    (b"bc", 7),
    (b"d", 5),
    (b"d", 6),
    (b"d", 7),
];

fn is_row(row: RowRef<'_>, text: &[u8], n: u64) -> bool {
    row.columns() == 2 && row.field(0) == Field::Text(text) && row.field(1) == Field::Int(n)
}

/// Whether these are the first so many of the rows that are made.
fn are_first(rows: &[OwnRow], count: usize) -> bool {
    for (kept, (text, n)) in rows.iter().zip(MADE) {
        if !is_row(kept.row(), text, n) {
            return false;
        }
    }
    rows.len() == count
}

/// Whether a sink that takes so many rows ends with the first of those made, and refuses the next.
fn keeps_the_first<R: Wait, O: LocalOp>(
    rt: &R,
    alloc: Global,
    op: &mut O,
    row: RowRef<'_>,
    most: usize,
) -> bool
    requires { (to : Kinds) × O.fits op.old (kinds_of (row_in_ref row)) to }
{
    let mut into = Keep {
        alloc,
        rows: Vec::new(alloc),
        most,
        shut: false,
    };
    let wanted = if most < MADE.len() {
        Err(Refused::Full)
    } else {
        Ok(())
    };
    op.push(rt, row, &mut (), &mut into) == wanted && are_first(into.rows.as_slice(), most)
}

#[test]
fn a_sink_that_refuses_has_the_rows_before(rt: HostRuntime) -> Result<(), Fail> {
    for most in 0..=MADE.len() {
        let row = three_words_and_5(rt.alloc())?;
        let ops = words_then_spread(rt.alloc())?;
        let mut chain = Chain::new(rt.alloc(), copy_ops(rt.alloc(), ops.as_slice())?)?;
        assert!(rt; keeps_the_first(&rt, rt.alloc(), &mut chain, row.row(), most));

        let mut both = words_and_spread(rt.alloc())?;
        assert!(rt; keeps_the_first(&rt, rt.alloc(), &mut both, row.row(), most));
    }
    Ok(())
}
