// A part of a text, as that very part of it.
ghost use Rattle.std.specs.Prelude.{◌≡◌};
ghost use Rattle.model.specs.Answers.{name_at};
ghost use Rattle.text.specs.Parts.{HasPart};

use model::Part;

// The bytes of a part that lies inside its text.
pub fn part_of(s: &[u8], part: Part) -> &[u8]
    requires { HasPart s.now part }
    ensures { result.now ≡ name_at s.now part }
{
    let start = part.start;
    let end = start + part.length;
    &s[start..end]
}
