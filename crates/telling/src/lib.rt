// Telling answers in numbers, for other languages: whether an answer is accepted, what it gives, and the three numbers of a refusal.
#![tactic(auto)]

ghost use Rattle.telling.specs.Told.{VerdictTold};

use model::Refusal;

pub mod counts; // counts.rt: answers that are counts
pub mod lamp; // lamp.rt: what the lamp answers

// Tells an answer's verdict: true, or false and the three numbers of the refusal, which are 0 where there is none.
pub fn tell<T>(
    answer: &Result<T, Refusal>,
    number: &mut u32,
    text: &mut u32,
    line: &mut u32,
) -> bool
    ensures { VerdictTold answer.now result number.new text.new line.new }
{
    match answer {
        Ok(_) => {
            *number = 0;
            *text = 0;
            *line = 0;
            return true;
        }
        Err(refusal) => {
            *number = refusal.number;
            *text = refusal.text;
            *line = refusal.line;
            return false;
        }
    }
}
