//! Which version the library is.

ghost use Rattle.std.specs.Prelude.{◌≡◌};

/// The version of the library, as `10000 * major + 100 * minor + patch`. A program was compiled for the
/// one that `ROW_MASK_VERSION` says.
#[unsafe(no_mangle)]
pub extern "C" fn row_mask_version() -> u32
    ensures { result ≡ 600 }
{
    600
}
