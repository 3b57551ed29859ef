// What the lamp program prints: yes, no or the refusal, in front of a lent buffer.
#![tactic(auto)]

ghost use Rattle.std.specs.Prelude.{◌≤◌};
ghost use Rattle.model.specs.Printed.{printed_lamp};
ghost use Rattle.list_lines.specs.Printing.{Prints};

use model::limits::WORK_WORDS;
use putting::bytes;

// No text of the lamp is longer: a refusal has at most so many bytes.
pub const LAMP_BYTES: usize = 38;

// Puts what is printed for four texts in front of a buffer, as far as the buffer reaches, and answers how long it is.
pub fn lamp_text(book: &[u8], rules: &[u8], query: &[u8], request: &[u8], out: &mut [u8]) -> usize
    ensures printed { Prints (printed_lamp book.now rules.now query.now request.now)
        out.old out.new result }
    ensures short { result ≤ 38 }
{
    let mut work = [0u32; WORK_WORDS];
    match wall_lamp::lamp(book, rules, query, request, &mut work) {
        Ok(true) => {
            return bytes::put_bytes(b"(lamp yes)\n", out, 0);
        }
        Ok(false) => {
            return bytes::put_bytes(b"(lamp no)\n", out, 0);
        }
        Err(refusal) => {
            return list_lines::put_refusal(refusal, out, 0);
        }
    }
}
