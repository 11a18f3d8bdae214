// The version of the library that is linked.
ghost use Rattle.std.specs.Prelude.{◌≡◌};

// 0.5.0 as one number: 0 * 65536 + 5 * 256 + 0.
#[unsafe(no_mangle)]
pub extern "C" fn s2xv2_version() -> u32
    ensures { result ≡ 1280 }
{
    1280
}
