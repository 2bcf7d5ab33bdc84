// Bytes into lines.
ghost use Rattle.std.specs.Prelude.{◌≡◌, ◌∷◌, ◌++◌, Some, None};
ghost use Rattle.lines.specs.Text.{Unbroken};

// The first line, without its end, and what follows the end; none where no line ends.
pub fn split_line(bytes: &[u8]) -> Option<(&[u8], &[u8])>
    ensures { elim result [ Some p ↦ (bytes.now ≡ p.0.now ++ (10 ∷ p.1.now)) × Unbroken p.0.now | None ↦ Unbroken bytes.now ] }
{
    let end = bytes.iter().position(|b| *b == b'\n')?;
    Some((&bytes[..end], &bytes[end + 1..]))
}
