// Telling what the lamp answers: 1 for yes, 0 for no and beside a refusal.
ghost use Rattle.model.specs.Answers.{lamp_answer};
ghost use Rattle.telling.specs.Told.{LampTold};

use crate::tell;
use model::Refusal;

// Tells whether the list has a row.
pub fn tell_lamp(
    shown: Result<bool, Refusal>,
    yes: &mut u32,
    number: &mut u32,
    text: &mut u32,
    line: &mut u32,
) -> bool
    ensures { LampTold (lamp_answer shown) result yes.new number.new text.new line.new }
{
    *yes = u32::from(shown.unwrap_or(false));
    tell(&shown, number, text, line)
}
