// The lengths that the paper allows: the reader and the writer ask the same.
ghost use Rattle.std.specs.Prelude.{◌≡◌};
ghost use Rattle.tack_extension.specs.Extension.{tack_length, breaks_length};

// Whether a tack, or none, has this length.
pub fn tack_length(n: usize) -> bool
    ensures { result ≡ tack_length n }
{
    n == 0 || n == 166
}

// Whether up to eight break signatures have this length.
pub fn breaks_length(n: usize) -> bool
    ensures { result ≡ breaks_length n }
{
    n % 128 == 0 && n <= 1024
}
