// The lamp, for programs in other languages.
ghost use Rattle.std.specs.Prelude.{◌≡◌, length};
ghost use Rattle.model.specs.Service.{ones, lamp_service};
ghost use Rattle.telling.specs.Told.{LampTold};

use telling::lamp::tell_lamp;

// Tells whether a row may be had: true, and 1 for yes or 0 for no, or false and the refusal. What does not apply is 0. The working memory ends all ones.
#[unsafe(no_mangle)]
pub extern "C" fn hifmuneth_lamp(
    book: &[u8],
    rules: &[u8],
    query: &[u8],
    request: &[u8],
    work: &mut [u32],
    yes: &mut u32,
    number: &mut u32,
    text: &mut u32,
    line: &mut u32,
) -> bool
    ensures answer { LampTold (lamp_service (length work.old) book.now rules.now query.now
        request.now).answer result yes.new number.new text.new line.new }
    ensures cleared { work.new ≡ ones (length work.old) }
{
    let shown = wall_lamp::lamp(book, rules, query, request, work);
    tell_lamp(shown, yes, number, text, line)
}
