// mirror_version.
ghost use Rattle.std.specs.Prelude.{◌≡◌};
ghost use Rattle.pairing.specs.CCodes.{version};

// The version of the interface, as include/mirror.h has it.
#[unsafe(no_mangle)]
pub extern "C" fn mirror_version() -> u32
    ensures { result ≡ version }
{
    5
}
