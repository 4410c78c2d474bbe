//! Which interface this is.
ghost use Rattle.std.specs.Prelude.{◌≡◌};

/// The version of this interface.
const VERSION: u32 = 4;

/// The version of this interface.
#[unsafe(no_mangle)]
pub extern "C" fn mqjudge_version() -> u32
    ensures { result ≡ 4 }
{
    VERSION
}
