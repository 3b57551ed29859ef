// Marks at vertices, as a set in a word.
ghost use Rattle.std.specs.Prelude.{◌≡◌, ◌<◌, ◌≤◌};
ghost use Rattle.model.specs.Choice.{pick};
ghost use Rattle.model.specs.Lists.{all, below};
ghost use Rattle.bits.specs.Word.{bit, with};

// The marks with one at v if a test holds.
pub fn mark_if(marks: u32, v: usize, test: bool) -> u32
    requires { v < 32 }
    ensures { result ≡ pick test (with marks v) marks }
{
    if test {
        return bits::with(marks, v);
    }
    marks
}

// Every vertex below n is marked.
pub fn all_marked(marks: u32, n: usize) -> bool
    requires { n ≤ 24 }
    ensures { result ≡ all (bit marks) (below n) }
{
    for v in 0..n {
        if !bits::has(marks, v) {
            return false;
        }
    }
    true
}
