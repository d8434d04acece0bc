// The library's version.
ghost use Rattle.std.specs.Prelude.{◌≡◌};
ghost use Rattle.capi.specs.Version.{library_version};

// The version of the library that is linked: major × 1,000,000 + minor × 1,000 + patch.
#[unsafe(no_mangle)]
pub extern "C" fn chaldoref_version() -> u32
    ensures { result ≡ library_version }
{
    capi::version::chaldoref_version()
}
