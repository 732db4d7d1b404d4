// Worked examples of script texts, computed on the definitions of `scripts`.
//
// There is no code here. The examples stand apart from `scripts` because computing a full script of 256 cues takes
// longer than proving the crate: an edit there need not compute them again.
#![tactic(auto)]
