// The three terms of the desk, what stepping keeps, and the runs that show wrong desks.
ghost use Rattle.boosting.specs.Theorems.{
  RefusalsChangeNothing,
  RowsDecide,
  MalformedExactly,
  AcceptedExactly,
  StepTableHolds,
  BlockedExactly,
  AcceptedCallsDo,
  PlainMeaning,
  CallsArePlain,
  Term3,
  Term3Rising,
  OpenedIsSound,
  SteppingKeepsSound,
  RunKeepsSound,
  RecoveryKeepsSound,
  SoundHasRoom,
  AbortingUnwinds,
};
ghost use Rattle.boosting.specs.Acceptance.{
  LockForNoAndEmpty,
  LocksUntilTheLastBack,
  SlotUntilItsEditCloses,
  UndoNewestFirst,
  NoRefusedCallInTheReplay,
  CommitsInOrder,
  BeginIsANewEdit,
  CueLocks24,
  UndoEntries16,
  QueueSlots64,
  AnswersAlone,
  ModeListedOnce,
};

// Term 1: the first row that is met decides, and a refused step changes nothing.
#[tactic(auto, using(crate::proofs::OfTerms::of_rows))]
pub fn each_row_turns_away()
    ensures rows_decide { RowsDecide }
    ensures malformed { MalformedExactly }
    ensures accepted { AcceptedExactly }
    ensures nothing_changes { RefusalsChangeNothing }
{}

// Term 2: a call that no earlier row meets is told to wait exactly when another edit is in the way.
#[tactic(auto, using(crate::proofs::OfTerms::of_waiting))]
pub fn waiting_is_conflict()
    ensures { BlockedExactly }
{}

// Term 2: an accepted step does and answers what the table of steps says.
#[tactic(auto, using(crate::proofs::OfTerms::of_calls))]
pub fn calls_do_what_they_say()
    ensures calls { AcceptedCallsDo }
    ensures steps { StepTableHolds }
    ensures aborting { AbortingUnwinds }
{}

// What the plain operations mean for sets and for counts.
#[tactic(auto, using(crate::proofs::OfTerms::of_plain_operations))]
pub fn plain_operations()
    ensures meaning { PlainMeaning }
    ensures calls { CallsArePlain }
{}

// Term 3: whatever the list of lines, and wherever it stops, recovery leaves what the replay leaves.
#[tactic(auto, using(crate::proofs::OfTerms::of_term_3))]
pub fn every_list_is_serializable()
    ensures any_order { Term3 }
    ensures rising_order { Term3Rising }
{}

// Opening makes a sound store, and stepping and recovery keep it sound.
#[tactic(auto, using(crate::proofs::OfTerms::of_soundness))]
pub fn stepping_keeps_the_store_sound()
    ensures opened { OpenedIsSound }
    ensures stepped { SteppingKeepsSound }
    ensures run { RunKeepsSound }
    ensures recovered { RecoveryKeepsSound }
    ensures has_room { SoundHasRoom }
{}

// The theorems at single runs: one for each wrong desk that is easily built.
#[tactic(auto, using(crate::proofs::OfTerms::of_acceptance))]
pub fn acceptance_runs()
    ensures lock_for_no_and_empty { LockForNoAndEmpty }
    ensures locks_until_the_last_back { LocksUntilTheLastBack }
    ensures slot_until_its_edit_closes { SlotUntilItsEditCloses }
    ensures undo_newest_first { UndoNewestFirst }
    ensures no_refused_call_in_the_replay { NoRefusedCallInTheReplay }
    ensures commits_in_order { CommitsInOrder }
    ensures begin_is_a_new_edit { BeginIsANewEdit }
    ensures cue_locks_24 { CueLocks24 }
    ensures undo_entries_16 { UndoEntries16 }
    ensures queue_slots_64 { QueueSlots64 }
    ensures answers_alone { AnswersAlone }
    ensures mode_listed_once { ModeListedOnce }
{}
