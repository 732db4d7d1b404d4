// The program's input and output, the lock sheet, and the worked runs.
ghost use Rattle.boosting.specs.Theorems.{ListingOnce};
ghost use Rattle.inputs.specs.Theorems.{DividedAtSteps};
ghost use Rattle.lock_listing.specs.Theorems.{LengthOfEveryOrder, LinesOnce, ListingShort};
ghost use Rattle.session.specs.Theorems.{OneLineAStep, OutputFits, ClosingIsReplay};
ghost use Rattle.worked_runs.specs.Worked.{WorkedLines, WorkedRun, WorkedUnmarked};

// The input is divided at its first line `steps`.
#[tactic(auto, using(crate::proofs::OfProgram::of_inputs))]
pub fn input_is_divided()
    ensures { DividedAtSteps }
{}

// The output has a line for each step, always fits, and ends with the script and the queue of the replay.
#[tactic(auto, using(crate::proofs::OfProgram::of_output))]
pub fn output_is_the_replay()
    ensures one_line_a_step { OneLineAStep }
    ensures fits { OutputFits }
    ensures closing_is_replay { ClosingIsReplay }
{}

// The lock sheet lists each lock once, in whatever order.
#[tactic(auto, using(crate::proofs::OfProgram::of_lock_sheet))]
pub fn lock_sheet_lists_each_lock_once()
    ensures each_once { ListingOnce }
    ensures lines_once { LinesOnce }
    ensures length_of_every_order { LengthOfEveryOrder }
    ensures short { ListingShort }
{}

// The worked steps and the printed run come out as the rules say.
#[tactic(auto, using(crate::proofs::OfProgram::of_worked_runs))]
pub fn worked_runs_come_out()
    ensures marked { WorkedLines }
    ensures printed { WorkedRun }
    ensures unmarked { WorkedUnmarked }
{}
