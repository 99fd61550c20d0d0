// "Stream tables" (document 01) for C.
ghost use Rattle.streams_c.specs.Tables.{ChecksTableTo, LooksUpTo};

// The verdict on a table.
#[unsafe(no_mangle)]
#[tactic(auto, using(words::proofs::FromRoom::code_told))]
pub extern "C" fn ahz_check_table(table: &[u8]) -> u8
    ensures { ChecksTableTo table.now result }
{
    words::code(streams::check(table))
}

// The stream that a frame belongs to, and its handle.
#[unsafe(no_mangle)]
pub extern "C" fn ahz_lookup(table: &[u8], frame: &[u8], handle: &mut u16) -> u8
    ensures { LooksUpTo table.now frame.now handle.old result handle.new }
{
    match streams::lookup(table, frame) {
        Ok(Some(found)) => {
            *handle = found;
            107
        }
        Ok(None) => 108,
        Err(no) => no.number(),
    }
}
