// Decimal numbers read from the digits of a field.
//
// A field of a line is 1 to 9 digits with no leading zero except 0 itself; anything else is malformed. What `digits`
// writes of a number below 1,000,000,000 is read as that number, and what is read is that number's one form. No public
// function has a `requires`.
//
// Text and place are two parameters: a cursor of both would spare one caller, `cue_lines`, two arguments, and each
// clause would say where it stood and stands, which the place that is answered says already.
#![tactic(auto)]

ghost use Rattle.std.specs.Prelude.{◌≡◌, length, MatchOption};
ghost use Rattle.numbers.specs.Field.{field_at, inner_field_at, leading_at};
ghost use Rattle.numbers.specs.Field.{DigitsPassed, FieldFits, InnerField, NoInnerField};
ghost use Rattle.numbers.specs.Number.{number_of, NineDigits};

use lines::COMMA;

// What no number of two digits or more begins with.
const ZERO: u8 = b'0';

// A number, and the place where its field ends.
#[derive(Clone, Copy, Debug, PartialEq, Eq)]
pub struct Field {
    pub value: u64,
    pub end: usize,
}

// The digits from a place on: their value and where they end; none if there are more than nine. By their index, which
// is what is answered.
fn pass_digits(s: &[u8], at: usize) -> Option<Field>
    ensures { DigitsPassed s.now at result }
{
    let mut value = 0;
    for i in at..s.len() {
        let digit @ b'0'..=b'9' = s[i] else {
            return Some(Field { value, end: i });
        };
        if i - at == 9 {
            return None;
        }
        value = value * 10 + u64::from(digit - b'0');
    }
    let end = at.max(s.len());
    Some(Field { value, end })
}

// The number of the digits from a place on, up to the first byte that is none. What that byte must be, the callers try
// behind the loop: a test less for each digit.
fn leading_number(s: &[u8], at: usize) -> Option<Field>
    ensures is_leading { result ≡ leading_at s.now at }
    ensures fits { FieldFits (length s.now) result }
{
    let number = pass_digits(s, at)?;
    if number.end == at {
        return None;
    }
    if s[at] == ZERO && number.end - at > 1 {
        return None;
    }
    Some(number)
}

// The field from a place on, up to the first comma or the end of the text.
pub fn read_field(s: &[u8], at: usize) -> Option<Field>
    ensures is_the_field { result ≡ field_at s.now at }
    ensures fits { FieldFits (length s.now) result }
{
    let number = leading_number(s, at)?;
    if number.end < s.len() && s[number.end] != COMMA {
        return None;
    }
    Some(number)
}

// The field from a place on, up to a comma; none where the text ends before one.
#[tactic(auto, using(crate::proofs::FieldLaws::inner_rules), unfolding(crate::specs::Field::inner_field_at))]
pub fn read_inner_field(s: &[u8], at: usize) -> Option<Field>
    ensures is_the_field { result ≡ inner_field_at s.now at }
    ensures found { MatchOption result (NoInnerField s.now at) (λ field. InnerField s.now at field) }
{
    let field = read_field(s, at)?;
    if field.end == s.len() {
        return None;
    }
    Some(field)
}

// The number that a field stands for. A value is below 1,000,000,000.
pub fn read_number(field: &[u8]) -> Option<u64>
    ensures is_the_number { result ≡ number_of field.now }
    ensures nine_digits { NineDigits result }
{
    let number = leading_number(field, 0)?;
    if number.end < field.len() {
        return None;
    }
    Some(number.value)
}
