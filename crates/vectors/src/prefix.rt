// The length in front of a case of a bundle, and how much of a case is looked at.
ghost use Rattle.std.specs.Prelude.{◌≡◌};
ghost use Rattle.vectors.specs.Prefix.{length_of, seen_of};

// `as`, since no `From` leads from u32 to usize.
pub fn length(head: &[u8; 4]) -> usize
    ensures { result ≡ length_of head.now }
{
    u32::from_be_bytes(*head) as usize
}

pub fn seen(length: usize) -> usize
    ensures { result ≡ seen_of length }
{
    length.min(65536)
}
