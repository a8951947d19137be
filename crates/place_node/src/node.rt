//! The nodes that place rows.
ghost use Rattle.std.specs.Prelude.{◌≡◌, ◌≤◌, ◌⊎◌, All, IfOk, OnOk, IfErr, OnErr, length, vec_len};
ghost use Rattle.std.specs.List.{AllZip};
ghost use Rattle.row_defs.specs.Limits.{most_rows};
ghost use Rattle.row_defs.specs.LocalOps.{AreSoundOps};
ghost use Rattle.dia_item.specs.KindList.{kind_list};
ghost use Rattle.block_pool.specs.Handles.{HandValue, Follows};
ghost use Rattle.dia_file.specs.Cuts.{rows_of_files};
ghost use Rattle.dia_file.specs.Files.{IsFileOf};
ghost use Rattle.lop_chain.specs.Ops.{ops_in};
ghost use Rattle.lop_chain.specs.Operands.{root_in};
ghost use Rattle.scatter.specs.Lines.{HasKinds, HasRoot, root_kinds};
ghost use Rattle.scatter.specs.Stocks.{lines_of, AreInPools};
ghost use Rattle.scatter.specs.Phases.{pools_of, IsUsed};
ghost use Rattle.scatter.specs.Told.{AreTold, arriving};
ghost use Rattle.sink_files.specs.Ending.{HasTwoPermits};
ghost use Rattle.place_node.specs.Placing.{PlaceRefused};

use crate::caching::cache;
use crate::node_err::NodeErr;
use block_pool::Hand;
use dia_edge::{Disk, Gate};
use dia_file::File;
use lop_chain::Operand;
use scatter::{Net, Stock};
use std::alloc::Global;
use std::sync::Wait;
use std::thread::Threads;
use worker_step::{MOST_TASKS, Way};

/// Where a node places the rows that arrive.
#[derive(Clone, Copy, Debug, PartialEq, Eq)]
pub enum PlaceFn {
    /// Each row in the file of the worker that it arrives at.
    Cache,
}

/// A node that places the rows that arrive in files, one per worker.
#[derive(Clone, Copy, Debug, PartialEq, Eq)]
pub struct PlaceNode {
    what: PlaceFn,
}

impl PlaceNode {
    /// A node that places rows so.
    pub fn new(what: PlaceFn) -> PlaceNode {
        PlaceNode { what }
    }

    /// The files of the rows that arrive, one per worker: joined by rank, these are the rows. All workers write them in one
    /// phase, each with a permit for the block that it reads and one for the frame that it writes.
    ///
    /// After a refusal what was written is gone. On every answer each hand is there, and the lines are in stock as before with
    /// no part lent, but that where this is the last use the root's line is gone.
    pub fn run<'p, R: Threads + Wait + Sync, G: Gate + Sync, D: Disk + Send + Sync, X: Net>(
        &self,
        rt: &R,
        alloc: Global,
        way: &mut Way<'_, G>,
        stock: &mut Stock<X>,
        operand: &Operand,
        hands: &mut Vec<Hand<'p, D>>,
    ) -> Result<Vec<File>, NodeErr>
        requires few { vec_len hands.old ≤ MOST_TASKS }
        requires long { vec_len hands.old ≡ stock.old.workers }
        requires root { HasRoot (lines_of stock.old) (root_in operand.now.root) }
        requires own { AreInPools (pools_of hands.old.items) (lines_of stock.old) }
        requires sound { AreSoundOps (root_kinds (lines_of stock.old) (root_in operand.now.root)) (ops_in operand.now.chain.items) (kind_list operand.now.kinds) }
        requires permits { All HasTwoPermits hands.old.items }

        ensures count { IfOk result (λ files. vec_len files ≡ stock.old.workers) }
        ensures own { IfOk result (λ files. AllZip IsFileOf (pools_of hands.old.items) files.items) }
        ensures kinds { IfOk result (λ files. All (HasKinds (kind_list operand.now.kinds)) files.items) }
        ensures rows { IfOk result (λ files. AreTold (root_in operand.now.root) hands.old.items
            → rows_of_files files.items ≡ arriving (lines_of stock.old) (root_in operand.now.root) (ops_in operand.now.chain.items)) }
        ensures few { IfOk result (λ files. length (rows_of_files files.items) ≤ most_rows) }
        ensures permits { OnOk result (AllZip (λ (a b : HandValue). b.permits ≡ a.permits) hands.old.items hands.new.items) }
        ensures refused { IfErr result (PlaceRefused (lines_of stock.old) (root_in operand.now.root) (ops_in operand.now.chain.items) hands.old.items hands.new.items) }
        ensures lines { OnOk result (IsUsed (lines_of stock.old) (root_in operand.now.root) operand.now.last (lines_of stock.new)) }
        ensures left { OnErr result (IsUsed (lines_of stock.old) (root_in operand.now.root) operand.now.last (lines_of stock.new) ⊎ (stock.new ≡ stock.old)) }

        // On every answer.
        ensures follows { AllZip Follows hands.old.items hands.new.items }
        ensures net { stock.new.net ≡ stock.old.net }
        ensures workers { stock.new.workers ≡ stock.old.workers }
    {
        match self.what {
            PlaceFn::Cache => cache(rt, alloc, way, stock, operand, hands),
        }
    }
}
