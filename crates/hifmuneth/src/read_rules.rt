// Reading rules, for programs in other languages.
ghost use Rattle.std.specs.Prelude.{◌≡◌, length};
ghost use Rattle.model.specs.Service.{ones, rules_service};
ghost use Rattle.telling.specs.Told.{RulesTold};

use telling::counts::tell_rules;

// Reads rules: true and their counts, or false and the refusal. What does not apply is 0. The working memory ends all ones.
#[unsafe(no_mangle)]
pub extern "C" fn hifmuneth_read_rules(
    book: &[u8],
    rules: &[u8],
    work: &mut [u32],
    categories: &mut usize,
    policies: &mut usize,
    number: &mut u32,
    text: &mut u32,
    line: &mut u32,
) -> bool
    ensures answer { RulesTold (rules_service (length work.old) book.now rules.now).answer result
        categories.new policies.new number.new text.new line.new }
    ensures cleared { work.new ≡ ones (length work.old) }
{
    let read = service::read_rules(book, rules, work);
    tell_rules(read, categories, policies, number, text, line)
}
