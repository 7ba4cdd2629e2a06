// The version of the library, as include/farey.h has it.
ghost use Rattle.std.specs.Prelude.{◌≡◌};

// 10,000 times the major number, 100 times the minor one and the patch: 200 is 0.2.0.
#[unsafe(no_mangle)]
pub extern "C" fn farey_version() -> u64
    ensures { result ≡ 200 }
{
    engine::version::farey_version()
}
