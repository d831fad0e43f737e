//! The version of the library.
ghost use Rattle.std.specs.Prelude.{◌≡◌};

/// Returns the version as one number: 65,536 for each major version, 256 for each minor one, and 1 for each patch.
#[unsafe(no_mangle)]
pub extern "C" fn nosgrivel_version() -> u32
    ensures version { result ≡ 0x000100 }
{
    0x000100
}
