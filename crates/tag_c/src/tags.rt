// "Reading a frame" (document 01; document 02, CR 5) for C: a tag or a trailer put in and taken off. The encoding is in the name of the
// call, so that no other can be handed in.
ghost use Rattle.encoding.specs.declared.Encoding.TheVariants.{RTag, Hsr, Prp};
ghost use Rattle.tag_c.specs.Tags.{InsertsTo, RemovesTo};

use encoding::Encoding;

// The frame with an R-TAG, which has no id, written to `out`, and its length.
#[unsafe(no_mangle)]
pub extern "C" fn ahz_insert(frame: &[u8], number: u16, out: &mut [u8], length: &mut usize) -> u8
    ensures { InsertsTo RTag frame.now number 0 out.old length.old result out.new length.new }
{
    insert_to(frame, Encoding::RTag, number, 0, out, length)
}

// With an HSR tag.
#[unsafe(no_mangle)]
pub extern "C" fn ahz_insert_hsr(
    frame: &[u8],
    number: u16,
    path: u8,
    out: &mut [u8],
    length: &mut usize,
) -> u8
    ensures { InsertsTo Hsr frame.now number path out.old length.old result out.new
        length.new }
{
    insert_to(frame, Encoding::Hsr, number, path, out, length)
}

// With a PRP trailer.
#[unsafe(no_mangle)]
pub extern "C" fn ahz_insert_prp(
    frame: &[u8],
    number: u16,
    lan: u8,
    out: &mut [u8],
    length: &mut usize,
) -> u8
    ensures { InsertsTo Prp frame.now number lan out.old length.old result out.new
        length.new }
{
    insert_to(frame, Encoding::Prp, number, lan, out, length)
}

// The frame without its R-TAG, written to `out`, and its length.
#[unsafe(no_mangle)]
pub extern "C" fn ahz_remove(frame: &[u8], out: &mut [u8], length: &mut usize) -> u8
    ensures { RemovesTo RTag frame.now out.old length.old result out.new length.new }
{
    remove_to(frame, Encoding::RTag, out, length)
}

// Without its HSR tag.
#[unsafe(no_mangle)]
pub extern "C" fn ahz_remove_hsr(frame: &[u8], out: &mut [u8], length: &mut usize) -> u8
    ensures { RemovesTo Hsr frame.now out.old length.old result out.new length.new }
{
    remove_to(frame, Encoding::Hsr, out, length)
}

// Without its PRP trailer.
#[unsafe(no_mangle)]
pub extern "C" fn ahz_remove_prp(frame: &[u8], out: &mut [u8], length: &mut usize) -> u8
    ensures { RemovesTo Prp frame.now out.old length.old result out.new length.new }
{
    remove_to(frame, Encoding::Prp, out, length)
}

fn insert_to(
    frame: &[u8],
    encoding: Encoding,
    number: u16,
    path: u8,
    out: &mut [u8],
    length: &mut usize,
) -> u8
    ensures { InsertsTo encoding frame.now number path out.old length.old result out.new
        length.new }
{
    let written = insertion::insert(frame, encoding, number, path, out);
    words::told(written, length)
}

fn remove_to(frame: &[u8], encoding: Encoding, out: &mut [u8], length: &mut usize) -> u8
    ensures { RemovesTo encoding frame.now out.old length.old result out.new length.new }
{
    let written = removal::remove(frame, encoding, out);
    words::told(written, length)
}
