ghost use Rattle.std.specs.Prelude.{◌≡◌};

/// 10,000 a + 100 b + c for the version a.b.c.
#[unsafe(no_mangle)]
pub extern "C" fn minorder_version() -> u32
    ensures { result ≡ 10000 }
{
    10_000
}
