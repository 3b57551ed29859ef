// What the programs share: reading texts from files, and printing. No contract can say what reached the system's output; `print_front` says what it gives a
// writer whose bytes are known.
#![tactic(auto)]

ghost use Rattle.std.specs.Prelude.{◌≡◌, ℕ, ◌<◌, ◌≤◌, take, length, slice_index, OnOk};
ghost use Rattle.std.specs.Io.KnownBytes.{Appends};

use std::io;
use std::io::Write;

pub mod files; // files.rt: texts from files

// Prints the first bytes of a text, or answers why the output does not take them all. An error leaves the writer with what it took before, of which nothing is
// said.
pub fn print_front<W: Write>(out: &mut W, text: &[u8], n: usize) -> io::Result<()>
    requires { n ≤ length text.now }
    ensures { OnOk result (Appends (W.contents out.old) (W.contents out.new) (take n text.now)) }
{
    out.write_all(&text[..n])
}

// A buffer of zeros. They are told one by one: as one list they would be counted out by a proof about a buffer of many bytes.
pub fn room<const N: usize>() -> [u8; N]
    ensures long { length result ≡ N }
    ensures zeros { (i : ℕ) → i < N → slice_index result i ≡ 0 }
{
    [0; N]
}
