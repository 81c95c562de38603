//! The tenants of a line, which would be too long with all of them.

ghost use Rattle.std.specs.Prelude.{◌≡◌, drop, length, take};
ghost use Rattle.std.specs.Int.{div_ceil};

/// How many tenants stand in a line at most: it stays below 4,096 bytes, with names of 64.
pub(super) const TENANTS: usize = 30;

/// In how many lines tenants stand.
pub(super) fn line_count<T>(tenants: &[T]) -> usize
    ensures { result ≡ div_ceil (length tenants.now) 30 }
{
    tenants.len().div_ceil(TENANTS)
}

/// The tenants of the next line.
pub(super) fn first_of<T>(tenants: &[T]) -> &[T]
    ensures { result.now ≡ take 30 tenants.now }
{
    if tenants.len() > TENANTS {
        &tenants[..TENANTS]
    } else {
        tenants
    }
}

/// The tenants of the lines behind it.
pub(super) fn behind<T>(tenants: &[T]) -> &[T]
    ensures { result.now ≡ drop 30 tenants.now }
{
    if tenants.len() > TENANTS {
        &tenants[TENANTS..]
    } else {
        &tenants[tenants.len()..]
    }
}
