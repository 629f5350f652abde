//! The parts of a path between its slashes.
ghost use Rattle.std.specs.Prelude.{◌≡◌, ◌≤◌, length, not};
ghost use Rattle.std.specs.List.{prefix_len};
ghost use Rattle.http_heads.specs.Route.{behind_slashes, is_no_slash, segment};

/// What stands between the `n`-th slash of a path, from 1, and the next one or the end; nothing if there are fewer
/// slashes.
pub(crate) fn segment(target: &[u8], n: usize) -> &[u8]
    ensures { result.now ≡ segment n target.now }
{
    let rest = behind_slashes(target, n);
    &rest[..front_len(rest)]
}

fn behind_slashes(target: &[u8], n: usize) -> &[u8]
    ensures { result.now ≡ behind_slashes n target.now }
{
    let mut left = n;
    for (i, byte) in target.iter().enumerate() {
        if left == 0 {
            return &target[i..];
        }
        if *byte == b'/' {
            left -= 1;
        }
    }
    &[]
}

fn front_len(bytes: &[u8]) -> usize
    ensures len { result ≡ prefix_len is_no_slash bytes.now }
    ensures most { result ≤ length bytes.now }
{
    bytes.iter().take_while(|byte| is_no_slash(**byte)).count()
}

fn is_no_slash(byte: u8) -> bool
    ensures { result ≡ is_no_slash byte }
{
    byte != b'/'
}
