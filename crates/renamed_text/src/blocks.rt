// Putting a whole text into a buffer: at once where there is room for all of it, or for none.
ghost use Rattle.std.specs.Prelude.{◌+◌, ◌≤◌, length};
ghost use Rattle.putting.specs.Putting.{Puts};

// Places are counted as far as numbers go.
const LAST_PLACE: usize = 18446744073709551615;

// Puts a text. Where there is no room at all it is counted at once.
pub fn put_block(bytes: &[u8], out: &mut [u8], at: usize) -> usize
    ensures { Puts out.old at bytes.now out.new result }
{
    if out.len() <= at {
        if bytes.len() <= LAST_PLACE - at {
            return at + bytes.len();
        }
    } else if bytes.len() <= out.len() - at {
        copy(bytes, out, at);
        return at + bytes.len();
    }
    putting::bytes::put_bytes(bytes, out, at)
}

// Puts a text where there is room for all of it. Byte by byte: of `copy_from_slice` the C function `memmove` is made here, which a caller of the library would
// have to have, and it needs nothing but `memcpy` and `memset`.
fn copy(bytes: &[u8], out: &mut [u8], at: usize)
    requires { at + length bytes.now ≤ length out.old }
    ensures { Puts out.old at bytes.now out.new (at + length bytes.now) }
{
    for i in 0..bytes.len() {
        out[at + i] = bytes[i];
    }
}
