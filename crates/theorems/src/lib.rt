// The theorems about the desk's definitions, each a clause in the contract of a function, a function a subject.
//
// The functions take nothing and do nothing: a clause of theirs holds of all texts, stores and lists of steps at once,
// and a theorem that is cut shows here. What it says stands in the `specs/` of the crate that it is about.
#![tactic(auto)]

mod program; // program.rt: the desk's input and output, the lock sheet, the worked runs
mod step_lines; // step_lines.rt: step lines and answers
mod terms; // terms.rt: the three terms, what stepping keeps, the runs that show wrong desks
mod texts; // texts.rt: lines, numbers, cues, scripts, the stamp

pub use program::{
    input_is_divided, lock_sheet_lists_each_lock_once, output_is_the_replay, worked_runs_come_out,
};
pub use step_lines::{answers_differ, step_lines_have_one_form};
pub use terms::{
    acceptance_runs, calls_do_what_they_say, each_row_turns_away, every_list_is_serializable,
    plain_operations, stepping_keeps_the_store_sound, waiting_is_conflict,
};
pub use texts::{
    cue_lines_have_one_form, cues_are_their_keys, lines_are_the_text, numbered_lines_are_parts,
    numbers_have_one_form, scripts_are_sets, stamp_weights,
};
