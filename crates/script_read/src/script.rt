//! Scripts.
ghost use Rattle.std.specs.Prelude.{◌≡◌, map};
ghost use Rattle.script_read.specs.Statements.{numbered_in};

use crate::statement::Numbered;
use std::marker::Model;

/// An accepted script: its statements in order. Each names earlier lines alone.
#[derive(Debug, Drop)]
pub struct Script {
    statements: Vec<Numbered>,
}

impl Model for Script {
    ghost use Rattle.std.specs.Prelude.{map};
    ghost use Rattle.script_defs.specs.Scripts as defs;

    ghost Value = { defs.Script };

    ghost use Rattle.std.specs.Coded.{codes};
    ghost use Rattle.row_defs.specs.Coding.{expr_code};

    ghost coded = { Prim.hlevel (codes, expr_code) };

    ghost use Rattle.script_read.specs.Statements.{numbered_in};

    ghost view = { λ s. map numbered_in s.statements.items };
}

impl Script {
    pub(crate) fn of(statements: Vec<Numbered>) -> Script
        ensures { result ≡ map numbered_in statements.items }
    {
        Script { statements }
    }

    /// The statements, each with the number of its line.
    pub fn statements(&self) -> &[Numbered]
        ensures { map numbered_in result.now ≡ self.now }
    {
        self.statements.as_slice()
    }
}
