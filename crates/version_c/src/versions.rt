// The version of the calls, by which a program sees that the archive is the one that its header speaks of.
ghost use Rattle.version_c.specs.Versions.{Tells};

#[unsafe(no_mangle)]
pub extern "C" fn ahz_version() -> u32
    ensures { Tells result }
{
    327681
}
