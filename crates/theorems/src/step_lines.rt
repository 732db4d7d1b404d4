// Step lines and answers.
ghost use Rattle.answers.specs.Theorems.{AnswersDiffer, AnswerLineOneLf};
ghost use Rattle.steps.specs.Theorems.{StepWriteThenRead, EmptyLineIsNoStep, StepReadIsCanonical};

// A step line that is written is read again, the empty line is none, and what is read as a step is its one form.
#[tactic(auto, using(crate::proofs::OfStepLines::of_steps))]
pub fn step_lines_have_one_form()
    ensures write_then_read { StepWriteThenRead }
    ensures empty_is_none { EmptyLineIsNoStep }
    ensures read_is_canonical { StepReadIsCanonical }
{}

// Different answers have different lines, each of one line.
#[tactic(auto, using(crate::proofs::OfStepLines::of_answers))]
pub fn answers_differ()
    ensures differ { AnswersDiffer }
    ensures one_line { AnswerLineOneLf }
{}
