ghost use Rattle.std.specs.Prelude.{◌≡◌};

/// The version of the library: ten thousand for each major version, a hundred for each minor one, one for each patch.
#[unsafe(no_mangle)]
pub extern "C" fn btworld_version() -> u32
    ensures { result ≡ 20100 }
{
    20_100
}
