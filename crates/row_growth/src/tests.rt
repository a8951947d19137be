//! Worked words.

use crate::{Extent, extent_of};
use dia_expr::{ExprErr, read_exprs};
use lop_chain::ScriptOp;
use std::alloc::Global;
use std::test::Fail;

/// A map to an expression, and then the words of its value.
fn words_of_value(alloc: Global, expr: &[u8]) -> Result<Vec<ScriptOp>, ExprErr> {
    let mut ops = Vec::new(alloc);
    ops.push(ScriptOp::Map(read_exprs(alloc, expr)?))?;
    ops.push(ScriptOp::Words { column: 0 })?;
    Ok(ops)
}

#[test]
fn words_are_as_few_as_their_text_may_have(rt: HostRuntime) -> Result<(), Fail> {
    let cases: [(&[u8], u64); 7] = [
        (b"f0", 3_000),
        (b"head 1 f0", 3_000),
        (b"word 1 f0", 1_000),
        (b"text len f0", 1_000),
        (b"tail 1 text len f0", 1_000),
        (b"if len f0 text 7 f0", 3_000),
        (b"'abcd", 2_000),
    ];
    for (expr, rows) in cases {
        let ops = words_of_value(rt.alloc(), expr)?;
        assert_eq!(rt; extent_of(1_000, 5, ops.as_slice()), Extent::AtMost(rows));
    }
    Ok(())
}
