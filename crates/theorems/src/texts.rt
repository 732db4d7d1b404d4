// Texts: lines, numbers, cues, scripts and the stamp.
ghost use Rattle.checksum.specs.Theorems.{PiecesJoined, EntriesAreWeights, ChecksumBounded, PrintedValuesRight};
ghost use Rattle.cue_lines.specs.Theorems.{CueWriteThenRead, CueReadIsCanonical};
ghost use Rattle.cue_texts.specs.Theorems.{BodyThenLf, CueLineShort, CueLineNoLf};
ghost use Rattle.cues.specs.Theorems.{KeyKeepsOrder, KeyOneToOne, KeyGivesCue, KeyIsCueKey};
ghost use Rattle.lines.specs.Theorems.{LinesJoined, LinesWithoutLF, LinesRead};
ghost use Rattle.numbered_lines.specs.Theorems.{NumberedBytes, NumberedPlaces, LineWithin};
ghost use Rattle.numbers.specs.Theorems.{WriteThenRead, ReadIsCanonical, EveryNumber};
ghost use Rattle.scripts.specs.Theorems.{
  WriteThenRead as ScriptWriteThenRead,
  ReadIsSound,
  SameBytesSameCues,
  AcceptedCues,
  TextFits,
};

// The lines of a text, joined again, are the text; no line has an LF; reading line after line finds them all.
#[tactic(auto, using(crate::proofs::OfTexts::of_lines))]
pub fn lines_are_the_text()
    ensures joined { LinesJoined }
    ensures without_lf { LinesWithoutLF }
    ensures read { LinesRead }
{}

// The numbered line of two texts has the bytes of that line, and is a part of the text that holds it.
#[tactic(auto, using(crate::proofs::OfTexts::of_numbered_lines))]
pub fn numbered_lines_are_parts()
    ensures bytes { NumberedBytes }
    ensures places { NumberedPlaces }
    ensures within { LineWithin }
{}

// A number that is written is read again, and what is read as a number is its one form.
#[tactic(auto, using(crate::proofs::OfTexts::of_numbers))]
pub fn numbers_have_one_form()
    ensures write_then_read { WriteThenRead }
    ensures read_is_canonical { ReadIsCanonical }
    ensures every_number { EveryNumber }
{}

// Keys stand for exactly the cues in range, in their order.
#[tactic(auto, using(crate::proofs::OfTexts::of_cues))]
pub fn cues_are_their_keys()
    ensures in_order { KeyKeepsOrder }
    ensures one_to_one { KeyOneToOne }
    ensures key_gives_cue { KeyGivesCue }
    ensures is_cue_key { KeyIsCueKey }
{}

// A cue line that is written is read again, and what is read is its cue's one line: short, with one LF at its end.
#[tactic(auto, using(crate::proofs::OfTexts::of_cue_lines))]
pub fn cue_lines_have_one_form()
    ensures write_then_read { CueWriteThenRead }
    ensures read_is_canonical { CueReadIsCanonical }
    ensures body_then_lf { BodyThenLf }
    ensures short { CueLineShort }
    ensures no_other_lf { CueLineNoLf }
{}

// A script that is written is read again; equal bytes are equal sets of cues; what is read is sound and fits.
#[tactic(auto, using(crate::proofs::OfTexts::of_scripts))]
pub fn scripts_are_sets()
    ensures write_then_read { ScriptWriteThenRead }
    ensures same_bytes_same_cues { SameBytesSameCues }
    ensures accepted_cues { AcceptedCues }
    ensures read_is_sound { ReadIsSound }
    ensures text_fits { TextFits }
{}

// The weights keep to their rule, and cutting a text into pieces makes no difference to its stamp.
#[tactic(auto, using(crate::proofs::OfTexts::of_stamps))]
pub fn stamp_weights()
    ensures entries_are_weights { EntriesAreWeights }
    ensures pieces_joined { PiecesJoined }
    ensures bounded { ChecksumBounded }
    ensures printed_values { PrintedValuesRight }
{}
