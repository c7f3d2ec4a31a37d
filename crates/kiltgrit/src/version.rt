// The version, which a host holds against its header's.
ghost use Rattle.std.specs.Prelude.{◌≡◌};
ghost use Rattle.kiltgrit.specs.Version.{version};

#[unsafe(no_mangle)]
pub extern "C" fn kiltgrit_version() -> u32
    ensures { result ≡ version }
{
    66304
}
