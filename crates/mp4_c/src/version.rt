//! Which version the library is.

ghost use Rattle.std.specs.Prelude.{◌≡◌};

/// The version of the library: its three numbers, times 10000, 100 and 1.
#[unsafe(no_mangle)]
pub extern "C" fn mp4_c_version() -> u32
    ensures { result ≡ 100 }
{
    100
}
