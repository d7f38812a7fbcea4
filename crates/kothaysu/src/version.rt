//! The version of the library.

ghost use Rattle.std.specs.Prelude.{◌≡◌};

/// 10,000 for each major version, 100 for each minor one, 1 for each patch: `KOTHAYSU_VERSION` of the header that belongs to it.
#[unsafe(no_mangle)]
pub extern "C" fn kothaysu_version() -> u32
    ensures { result ≡ 100 }
{
    100
}
