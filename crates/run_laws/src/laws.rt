//! The laws.
ghost use Rattle.run_laws.specs.Order.{WorkBegins, WorkGoesOn};
ghost use Rattle.run_laws.specs.Laws.{LineGoesOn, ActionGoesOn, RunsAreRuns, ChainsMake, RootsAreDone};

/// The work of an accepted script can be done from its beginning: each line once, behind the lines that it names, and each
/// action behind its line.
pub fn work_begins()
    ensures { WorkBegins }
{}

/// Where an item was done, the others can be done.
pub fn work_goes_on()
    ensures { WorkGoesOn }
{}

/// A line that is done goes on a run: the lists that were there stay results of their definitions, and nothing that was
/// printed changes.
pub fn line_goes_on()
    ensures { LineGoesOn }
{}

/// An action that is done goes on a run and prints its text.
pub fn action_goes_on()
    ensures { ActionGoesOn }
{}

/// A run of the items done is a run of so many items of the work.
pub fn runs_are_runs()
    ensures { RunsAreRuns }
{}

/// The line at the root of a chain is done where the chain's last line is.
pub fn roots_are_done()
    ensures { RootsAreDone }
{}

/// The rows of a chain's last line are what its local lines make of the root's.
pub fn chains_make()
    ensures { ChainsMake }
{}
