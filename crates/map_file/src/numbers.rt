// Numbers as bytes, least byte first. LLVM makes one load or one store of each.
ghost use Rattle.std.specs.Prelude.{◌≡◌, ◌+◌, ◌≤◌, length, take, drop};
ghost use Rattle.ring.specs.Vectors.{put_at};
ghost use Rattle.map_file.specs.Files.{number_at};

// The bytes of a number at a place.
pub(crate) fn put<const N: usize>(out: &mut [u8], at: usize, bytes: [u8; N])
    requires { at + N ≤ length out.old }
    ensures { out.new ≡ put_at at bytes.entry out.old }
{
    out[at..at + N].copy_from_slice(&bytes);
}

// The N bytes from a place on.
fn bytes_at<const N: usize>(bytes: &[u8], at: usize) -> [u8; N]
    requires { at + N ≤ length bytes.now }
    ensures { result ≡ take N (drop at bytes.now) }
{
    *bytes[at..].first_chunk().unwrap()
}

// Kept: std has no trait with `from_le_bytes`, and one of our own would be longer than these two lines.
pub(crate) fn u32_at(bytes: &[u8], at: usize) -> u32
    requires { at + 4 ≤ length bytes.now }
    ensures { result ≡ number_at 4 bytes.now at }
{
    u32::from_le_bytes(bytes_at(bytes, at))
}

// Kept: as `u32_at`.
pub(crate) fn u64_at(bytes: &[u8], at: usize) -> u64
    requires { at + 8 ≤ length bytes.now }
    ensures { result ≡ number_at 8 bytes.now at }
{
    u64::from_le_bytes(bytes_at(bytes, at))
}
