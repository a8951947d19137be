//! What holds of all expressions. The calls do nothing: they are there for what they say.
ghost use Rattle.dia_expr.specs.Laws.{AreReadAgain, IsReadAgain, HaveTheirKinds};

/// The words of expressions, one after the other, are read as these expressions.
#[inline]
pub fn expressions_are_read_again()
    ensures { AreReadAgain }
{}

/// The words of one expression are read as one.
#[inline]
pub fn an_expression_is_read_again()
    ensures { IsReadAgain }
{}

/// A value has the kind of its expression.
#[inline]
pub fn values_have_their_kinds()
    ensures { HaveTheirKinds }
{}
