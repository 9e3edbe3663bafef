//! The 16 bytes with which both formats begin.

ghost use Rattle.std.specs.Prelude.{◌≡◌, ◌∷◌, ◌++◌};
ghost use Rattle.dump_format.specs.Text.{word};

/// The head: the magic, whose last byte is that of the format, the step, the number of PEs and the number of elements.
pub(crate) fn head(format: u8, step: u32, procs: u32, count: u32) -> [u8; 16]
    ensures { result ≡ 76 ∷ 66 ∷ 68 ∷ format ∷ (word step ++ (word procs ++ word count)) }
{
    let mut text = [0; 16];
    text[..4].copy_from_slice(&[b'L', b'B', b'D', format]);
    text[4..8].copy_from_slice(&step.to_be_bytes());
    text[8..12].copy_from_slice(&procs.to_be_bytes());
    text[12..].copy_from_slice(&count.to_be_bytes());
    text
}
