//! The least of the places that are noted one after the other.
ghost use Rattle.std.specs.Prelude.{◌≡◌, Some, if◌then◌else◌};
ghost use Rattle.pm_brackets.specs.Noted.{lesser};

/// The lesser of two places, of which each may be missing.
pub(crate) fn lesser(first: Option<u32>, second: Option<u32>) -> Option<u32>
    ensures { result ≡ lesser first second }
{
    match first {
        None => second,
        Some(a) => match second {
            None => first,
            Some(b) => Some(a.min(b)),
        },
    }
}

/// The lesser of the place and the one that was noted before, if the place isn't right; else the one that was noted.
pub fn noted(found: Option<u32>, place: u32, right: bool) -> Option<u32>
    ensures { result ≡ (if right then found else lesser found (Some place)) }
{
    if right {
        found
    } else {
        lesser(found, Some(place))
    }
}
