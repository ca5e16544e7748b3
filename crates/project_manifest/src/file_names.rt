ghost use Rattle.std.specs.Prelude.{◌≡◌, ◌↔◌, Some, All, IsTrue, slice_get};
ghost use Rattle.project_manifest.specs.Manifests.{IsFileByte, IsFileName, project_name};

/// The most bytes of a file's name.
const MOST_NAME_BYTES: usize = 64;

/// Whether a byte may stand in a file's name.
fn is_file_byte(byte: u8) -> bool
    ensures { IsTrue result ↔ IsFileByte byte }
{
    byte.is_ascii_alphanumeric() || byte == b'_' || byte == b'-' || byte == b'.'
}

/// Whether all these bytes may stand in a file's name.
fn has_file_bytes(name: &[u8]) -> bool
    ensures { IsTrue result ↔ All IsFileByte name.now }
{
    name.iter().all(|byte| is_file_byte(*byte))
}

/// Whether the first byte is a dot.
fn begins_with_dot(name: &[u8]) -> bool
    ensures { IsTrue result ↔ (slice_get name.now 0 ≡ Some 46) }
{
    match name.first() {
        Some(first) => *first == b'.',
        None => false,
    }
}

/// Whether the name is the manifest's own, `project`.
pub fn is_manifest_name(name: &[u8]) -> bool
    ensures { IsTrue result ↔ (name.now ≡ project_name) }
{
    name == b"project".as_slice()
}

/// Whether these bytes are a name that a manifest may give to a file: 1 to 64 ASCII letters, digits, `_`, `-` and `.`, of
/// which the first is no dot, and not the manifest's own.
pub fn is_file_name(name: &[u8]) -> bool
    ensures { IsTrue result ↔ IsFileName name.now }
{
    if name.is_empty() || name.len() > MOST_NAME_BYTES {
        return false;
    }
    if begins_with_dot(name) || is_manifest_name(name) {
        return false;
    }
    has_file_bytes(name)
}
