//! The aliases that extract generates.
ghost use Rattle.rewriting.specs.Generated.{generated};
ghost use Rattle.std.specs.Prelude.{◌≡◌};

/// The alias of a number: the prefix, `_`, and the nine lowest digits of the number.
pub fn generated(number: u32) -> [u8; 32]
    ensures { result ≡ generated number }
{
    let mut alias = *b"__datafusion_extracted_000000000";
    let mut rest = number;
    for place in (23..32).rev() {
        alias[place] = b'0' + (rest % 10) as u8;
        rest /= 10;
    }
    alias
}
