// The lengths and the flags that the paper allows: the reader and the writer ask the same.
ghost use Rattle.std.specs.Prelude.{◌≡◌};
ghost use Rattle.tack_extension_two.specs.ExtensionTwo.{tacks_length, flags_allowed};

// Whether one or two tacks have this length.
pub(crate) fn tacks_length(n: usize) -> bool
    ensures { result ≡ tacks_length n }
{
    n == 166 || n == 332
}

// Whether tacks of this length may have these flags.
pub(crate) fn flags_allowed(tacks: usize, flags: u8) -> bool
    ensures { result ≡ flags_allowed tacks flags }
{
    flags < if tacks == 332 { 4 } else { 2 }
}
