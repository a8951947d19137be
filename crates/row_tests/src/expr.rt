//! Worked expressions.
ghost use Rattle.std.specs.Prelude.{◌<◌, length, IfOk};

use dia_edge::NoMemory;
use dia_expr::{
    Expr, ExprErr, Formula, KindErr, eval, eval_int, is_numeric, kind_of, read_exprs, read_one,
};
use dia_item::{Field, Kind, RowBuf, RowRef};
use std::alloc::Global;
use std::test::Fail;

const MOST: u64 = 18_446_744_073_709_551_615;

/// A row of which the columns 1 and 2 are numbers and the others texts.
fn row_of_six(alloc: Global) -> Result<RowBuf, NoMemory>
    ensures { IfOk result (λ row. 0 < length row) }
{
    let mut row = RowBuf::new(alloc)?;
    row.push_text(b" ab\t\tcd\r  ef\r");
    row.push_int(5);
    row.push_int(MOST);
    row.push_text(b"");
    row.push_text(b"ab");
    row.push_text(b"007");
    Ok(row)
}

/// Whether the text is one expression whose value is this.
fn is_worth(alloc: Global, text: &[u8], row: RowRef<'_>, want: Field<'_>) -> Result<bool, ExprErr> {
    let exprs = read_exprs(alloc, text)?;
    let [expr] = exprs.as_slice() else {
        return Ok(false);
    };
    let mut value = RowBuf::new(alloc)?;
    match kind_of(expr, &row.kinds()) {
        Ok(Kind::Int) if Field::Int(eval_int(expr, row)) != want => Ok(false),
        Ok(Kind::Int) if Field::Int(Formula::of(alloc, expr)?.value(&row)) != want => Ok(false),
        Ok(_) => {
            eval(expr, row, &mut value);
            Ok(value.row().field(0) == want)
        }
        Err(_) => Ok(false),
    }
}

#[test]
fn numbers_are_computed(rt: HostRuntime) -> Result<(), Fail> {
    let row = row_of_six(rt.alloc())?;
    let cases: [(&[u8], u64); 43] = [
        (b"f1", 5),
        (b"mod f2 f1", 0),
        (b"mod mul f2 f1 1000003", 350_682),
        (b"div add f2 f1 3", 1),
        (b"sub 9 add f1 mul 2 3", MOST - 1),
        (b"18446744073709551615", MOST),
        (b"007", 7),
        (b"add f2 1", 0),
        (b"add f1 mul f1 3", 20),
        (b"sub 0 1", MOST),
        (b"sub 7 f1", 2),
        (b"mul f2 f2", 1),
        (b"div 7 2", 3),
        (b"div 7 0", 0),
        (b"mod 7 4", 3),
        (b"mod 7 0", 0),
        (b"least 3 f1", 3),
        (b"most 3 f1", 5),
        (b"and 6 3", 2),
        (b"or 6 3", 7),
        (b"xor 6 3", 5),
        (b"not 0", 1),
        (b"not f2", 0),
        (b"eq f3 '", 1),
        (b"eq f4 'ab", 1),
        (b"eq f4 'abc", 0),
        (b"lt 'ab 'b", 1),
        (b"lt f4 'abc", 1),
        (b"lt 10 9", 0),
        (b"le 5 f1", 1),
        (b"le f1 5", 1),
        (b"lt len f0 13", 0),
        (b"eq num f5 7", 1),
        (b"le f5 '0", 0),
        (b"if f1 1 2", 1),
        (b"if 0 1 2", 2),
        (b"len f0", 13),
        (b"len text f2", 20),
        (b"num f5", 7),
        (b"num f4", 0),
        (b"num '18446744073709551615", MOST),
        (b"num '18446744073709551616", 0),
        (b"num '000000000000000000001", 0),
    ];
    for (text, want) in cases {
        assert!(rt; is_worth(rt.alloc(), text, row.row(), Field::Int(want)) == Ok(true));
    }
    Ok(())
}

#[test]
fn texts_are_cut(rt: HostRuntime) -> Result<(), Fail> {
    let row = row_of_six(rt.alloc())?;
    let cases: [(&[u8], &[u8]); 21] = [
        (b"f3", b""),
        (b"'", b""),
        (b"''f0", b"'f0"),
        (b"if 0 f4 f5", b"007"),
        (b"if 7 f4 f5", b"ab"),
        (b"text f2", b"18446744073709551615"),
        (b"text 000", b"0"),
        (b"head 3 text f2", b"184"),
        (b"tail 17 text f2", b"615"),
        (b"word 0 text 12", b"12"),
        (b"word 1 text 12", b""),
        (b"head 0 f4", b""),
        (b"head 1 f4", b"a"),
        (b"head f2 f4", b"ab"),
        (b"tail 1 f4", b"b"),
        (b"tail 3 f4", b""),
        (b"word 0 f0", b"ab"),
        (b"word 1 f0", b"cd"),
        (b"word 2 f0", b"ef"),
        (b"word 3 f0", b""),
        (b"word f2 f3", b""),
    ];
    for (text, want) in cases {
        assert!(rt; is_worth(rt.alloc(), text, row.row(), Field::Text(want)) == Ok(true));
    }
    Ok(())
}

#[test]
fn the_first_refusal_from_the_left_is_given(rt: HostRuntime) -> Result<(), Fail> {
    let cases: [(&[u8], Option<ExprErr>); 14] = [
        (b"", None),
        (b"  f0   1 ' ", None),
        (b"add f0", Some(ExprErr::BadForm)),
        (b"add 1x", Some(ExprErr::BadForm)),
        (b"f0 if 1 2", Some(ExprErr::BadForm)),
        (b"add f0 zzz", Some(ExprErr::UnknownWord)),
        (b"zzz add", Some(ExprErr::UnknownWord)),
        (b"1x f10", Some(ExprErr::UnknownWord)),
        (b"f", Some(ExprErr::UnknownWord)),
        (b"F0", Some(ExprErr::UnknownWord)),
        (b"-1", Some(ExprErr::UnknownWord)),
        (b"f0 1x", Some(ExprErr::BadNumber)),
        (b"18446744073709551616", Some(ExprErr::BadNumber)),
        (b"000000000000000000000", Some(ExprErr::BadNumber)),
    ];
    for (text, want) in cases {
        assert_eq!(rt; read_exprs(rt.alloc(), text).err(), want);
    }
    Ok(())
}

#[test]
fn one_expression_leaves_no_words(rt: HostRuntime) -> Result<(), Fail> {
    let cases: [(&[&[u8]], Option<ExprErr>); 6] = [
        (&[b"add", b"f0", b"1"], None),
        (&[], Some(ExprErr::BadForm)),
        (&[b"f0", b"zzz"], Some(ExprErr::BadForm)),
        (&[b"1x", b"f0"], Some(ExprErr::BadForm)),
        (&[b"add", b"f0", b"zzz"], Some(ExprErr::UnknownWord)),
        (&[b"add", b"f0", b"1x"], Some(ExprErr::BadNumber)),
    ];
    for (words, want) in cases {
        assert_eq!(rt; read_one(rt.alloc(), words).err(), want);
    }
    Ok(())
}

#[test]
fn a_missing_column_comes_before_a_wrong_kind(rt: HostRuntime) -> Result<(), Fail> {
    let row = row_of_six(rt.alloc())?;
    let cases: [(&[u8], KindErr); 8] = [
        (b"f6", KindErr::BadColumn),
        (b"add f0 f9", KindErr::BadColumn),
        (b"add f0 f1", KindErr::BadKind),
        (b"eq f0 f1", KindErr::BadKind),
        (b"if f0 1 2", KindErr::BadKind),
        (b"if 1 f0 2", KindErr::BadKind),
        (b"len f1", KindErr::BadKind),
        (b"head f4 f0", KindErr::BadKind),
    ];
    for (text, want) in cases {
        let exprs = read_exprs(rt.alloc(), text).map_err(|_| NoMemory)?;
        for expr in exprs.as_slice() {
            assert_eq!(rt; kind_of(expr, &row.row().kinds()), Err(want));
        }
    }
    Ok(())
}

#[test]
fn the_form_tells_where_numbers_are_made(rt: HostRuntime) -> Result<(), Fail> {
    let cases: [(&[u8], bool); 6] = [
        (b"f1", false),
        (b"7", true),
        (b"not f1", true),
        (b"text f1", false),
        (b"if f1 f0 len f0", true),
        (b"if f1 f0 'ab", false),
    ];
    for (text, want) in cases {
        let exprs = read_exprs(rt.alloc(), text).map_err(|_| NoMemory)?;
        for expr in exprs.as_slice() {
            assert_eq!(rt; is_numeric(expr), want);
        }
    }
    Ok(())
}

#[test]
fn deep_expressions_are_copied_and_computed(rt: HostRuntime) -> Result<(), Fail> {
    let row = row_of_six(rt.alloc())?;
    let mut text = Vec::new(rt.alloc());
    for _ in 0..171 {
        text.extend_from_slice(b"not ")?;
    }
    text.extend_from_slice(b"f1")?;
    let exprs = read_exprs(rt.alloc(), text.as_slice()).map_err(|_| NoMemory)?;
    for expr in exprs.as_slice() {
        let copy: Expr = expr.copy(rt.alloc())?;
        assert!(rt; kind_of(&copy, &row.row().kinds()) == Ok(Kind::Int));
        assert_eq!(rt; eval_int(&copy, row.row()), 0);
    }
    Ok(())
}
