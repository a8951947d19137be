//! The laws.
ghost use Rattle.stage_laws.specs.Laws.{AtEach, AtEachTwo};
ghost use Rattle.stage_laws.specs.Laws.{PlanBegins, StageCanBeDone, StageGoesOn, StageStops, PlanEnds, NothingIsDone, PlanReadsWhatIsNeeded};
ghost use Rattle.stage_laws.specs.Laws.{LineIsKept, LineKeeps, ActionIsDone, ActionKeeps, ActionIsCutOff, ActionHasTooMany, InputFails, ItemIsCutOff};
ghost use Rattle.stage_laws.specs.Laws.{CacheIsKept, CacheKeeps, CacheHasTooMany, CacheHasRows};

/// A run of an accepted script stands before the stages of its plan, while nothing is kept.
pub fn plan_begins()
    ensures { AtEach PlanBegins }
{}

/// The next stage can be done: what it reads is kept.
pub fn stage_can_be_done()
    ensures { AtEach StageCanBeDone }
{}

/// Where a stage prints and keeps what it has to, the run stands before those behind it.
pub fn stage_goes_on()
    ensures { AtEachTwo StageGoesOn }
{}

/// Where a stage stops, the run ends as that says.
pub fn stage_stops()
    ensures { AtEach StageStops }
{}

/// Where no stage is left, the whole work is done.
pub fn plan_ends()
    ensures { AtEach PlanEnds }
{}

/// Before the first stage nothing is done.
pub fn nothing_is_done()
    ensures { AtEach NothingIsDone }
{}

/// What the stages of a plan read are the inputs that the script needs.
pub fn plan_reads_what_is_needed()
    ensures { PlanReadsWhatIsNeeded }
{}

/// A line goes on where what is kept for it is a result of its definition, and a cache where its rows are as is claimed.
pub fn line_is_kept()
    ensures { AtEachTwo LineIsKept }
{}

/// What a line keeps that is kept itself.
pub fn line_keeps()
    ensures { LineKeeps }
{}

/// A cache goes on where the rows that arrive are kept and are as is claimed.
pub fn cache_is_kept()
    ensures { AtEachTwo CacheIsKept }
{}

/// What a cache keeps, where it lets rows go at their last use alone.
pub fn cache_keeps()
    ensures { CacheKeeps }
{}

/// A cache stops where too many rows arrive.
pub fn cache_has_too_many()
    ensures { AtEach CacheHasTooMany }
{}

/// The rows at the root of a cache's operand are there.
pub fn cache_has_rows()
    ensures { CacheHasRows }
{}

/// What an action keeps, where it lets rows go at their last use alone.
pub fn action_keeps()
    ensures { ActionKeeps }
{}

/// An action goes on where its text was taken.
pub fn action_is_done()
    ensures { AtEachTwo ActionIsDone }
{}

/// An action is cut off where a prefix of its text was taken.
pub fn action_is_cut_off()
    ensures { AtEach ActionIsCutOff }
{}

/// An action stops where too many rows arrive.
pub fn action_has_too_many()
    ensures { AtEach ActionHasTooMany }
{}

/// The line of an input stops for the input's cause.
pub fn input_fails()
    ensures { AtEach InputFails }
{}

/// Any item is cut off where nothing of it was done.
pub fn item_is_cut_off()
    ensures { AtEach ItemIsCutOff }
{}
