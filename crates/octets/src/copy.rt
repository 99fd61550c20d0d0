// A copy into a lent part of a buffer, be it of octets or of words.
ghost use Rattle.octets.specs.Copy.{Puts};

// Copies all of `src` to the start of `out`, and says whether there was room. Without room `out` stays as it is. The loop is this room's
// own, so that the archive for C needs no function from outside for it, as the slice's own copy would.
pub fn put<T: Copy>(src: &[T], out: &mut [T]) -> bool
    ensures { Puts src.now out.old result out.new }
{
    if src.len() <= out.len() {
        for i in 0..src.len() {
            out[i] = src[i];
        }
        true
    } else {
        false
    }
}
