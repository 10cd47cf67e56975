//! The first place of a byte.
ghost use Rattle.std.specs.Prelude.{◌≡◌, ◌≢◌, ℕ, ◌<◌, ◌≤◌, length, slice_index};

// The first place of `byte`, or the length of `bytes` where it does not stand there.
pub(crate) fn find(bytes: &[u8], byte: u8) -> usize
    ensures within { result ≤ length bytes.now }
    ensures before { (k : ℕ) → k < result → slice_index bytes.now k ≢ byte }
    ensures found { result < length bytes.now → slice_index bytes.now result ≡ byte }
{
    for (place, other) in bytes.iter().enumerate() {
        if *other == byte {
            return place;
        }
    }
    bytes.len()
}
