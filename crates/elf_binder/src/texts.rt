//! Bytes among texts.

ghost use Rattle.std.specs.Prelude.{◌≡◌, bytes_eq};
ghost use Rattle.std.specs.List.{list_any};

/// The bytes are one of the texts.
pub fn is_among(texts: &[&str], bytes: &[u8]) -> bool
    ensures { result ≡ list_any (λ text. bytes_eq text.now bytes.now) texts.now }
{
    texts.iter().any(|text| text.as_bytes() == bytes)
}
