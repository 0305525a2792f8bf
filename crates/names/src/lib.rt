//! Names as bytes: which are well formed, which are generated, and how numbers are written into them.
#![tactic(auto)]

ghost use Rattle.std.specs.Prelude.{◌≡◌, ◌+◌, ◌≤◌, min, ◌++◌, length, Some, None, if◌then◌else◌};
ghost use Rattle.plan.specs.Names.{digits, good_name, number_of, plain, prefixed, read_on};
ghost use Rattle.plan.specs.Rendering.{hexadecimal};
ghost use Rattle.std.specs.Fmt.{signed_decimal};

use itoa::Buffer;
use table::table::Table;

pub mod parts;

/// What a number of more than nine digits counts as: one more than the largest that a name may have.
pub const NUMBER_CAP: u32 = 1_000_000_000;

/// No comma and no line feed.
fn is_plain(name: &[u8]) -> bool
    ensures { result ≡ plain name.now }
{
    name.iter().all(|c| *c != b',' && *c != b'\n')
}

/// Whether a name begins as generated aliases do.
pub fn is_prefixed(name: &[u8]) -> bool
    ensures { result ≡ prefixed name.now }
{
    name.starts_with(b"__datafusion_extracted")
}

/// The number that decimal digits write, if there is nothing else, and `NUMBER_CAP` where it is larger.
fn read_digits(text: &[u8]) -> Option<u32>
    ensures { result ≡ if digits text.now then Some (min (read_on 0 text.now) NUMBER_CAP) else None }
{
    let mut n: u32 = 0;
    // A `for`: each turn tests a digit and adds it; in `try_fold` the same lines would stand in a closure.
    for c in text {
        if !c.is_ascii_digit() {
            return None;
        }
        n = n
            .saturating_mul(10)
            .saturating_add(u32::from(*c - b'0'))
            .min(NUMBER_CAP);
    }
    Some(n)
}

/// The number of a generated alias: the digits after the prefix and `_`, if nothing else follows.
/// No number counts as 0, and one of more than nine digits as `NUMBER_CAP`.
pub fn number_of(name: &[u8]) -> u32
    ensures { result ≡ min (number_of name.now) NUMBER_CAP }
{
    name.strip_prefix(b"__datafusion_extracted_")
        .and_then(read_digits)
        .unwrap_or(0)
}

/// Whether a name is well formed: 1 to 255 bytes, no comma, no line feed and no number of more than nine digits.
pub fn good_name(name: &[u8]) -> bool
    ensures { result ≡ good_name name.now }
{
    (1..=255).contains(&name.len()) && is_plain(name) && number_of(name) < NUMBER_CAP
}

/// How many bytes `write_signed` writes.
pub fn signed_len(z: i64) -> usize
    ensures value { result ≡ length (signed_decimal z) }
    ensures bound { result ≤ 21 }
{
    Buffer::new().format(z).len()
}

/// Writes a number in decimal digits, a negative one after `-`.
pub fn write_signed<const N: usize>(out: &mut Table<u8, N>, z: i64)
    requires { length out.old + length (signed_decimal z) ≤ N }
    ensures { out.new ≡ out.old ++ signed_decimal z }
{
    out.extend(Buffer::new().format(z).as_bytes());
}

/// Writes sixteen hexadecimal digits.
pub fn write_hexadecimal<const N: usize>(out: &mut Table<u8, N>, bits: u64)
    requires { length out.old + 16 ≤ N }
    ensures { out.new ≡ out.old ++ hexadecimal bits }
{
    let mut digits = [0; 16];
    hex::encode_to_slice(bits.to_be_bytes(), &mut digits).unwrap();
    out.extend(&digits);
}
