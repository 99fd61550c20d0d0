// "The bench tape" (document 01) for C: the lines of a tape's output, and how many octets they are.
ghost use Rattle.tape_c.specs.Tapes.{RunsTo};

// The output of a tape, written to `out`, and its length. AHZ_TAPE_OUTPUT octets are always enough.
#[unsafe(no_mangle)]
pub extern "C" fn ahz_tape_v3(tape: &[u8], out: &mut [u8], length: &mut usize) -> u8
    ensures { RunsTo tape.now out.old length.old result out.new length.new }
{
    words::told(tape::run(tape, out), length)
}
