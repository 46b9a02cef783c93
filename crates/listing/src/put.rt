// Bytes put at a place of a buffer, as far as it goes. Each function answers the place after what it put.
ghost use Rattle.std.specs.Prelude.{◌+◌, ◌≤◌, ◌<◌, ◌^◌, ◌∷◌, []};
ghost use Rattle.listing.specs.Listing.{digits_of, field_text};
ghost use Rattle.listing.specs.Inner.Ready.{PutBytes};

fn put_byte(out: &mut [u8], at: usize, b: u8) -> usize
    requires { at + 1 < 2 ^ 64 }
    ensures { PutBytes (b ∷ []) out.old out.new at result }
{
    if at < out.len() {
        out[at] = b;
    }
    at + 1
}

// The bytes of a text.
pub fn put_text(out: &mut [u8], at: usize, text: &[u8]) -> usize
    requires { at < 2 ^ 62 }
    ensures { PutBytes text.now out.old out.new at result }
{
    let mut next = at;
    for b in text {
        next = put_byte(out, next, *b);
    }
    next
}

// A number in decimal.
fn put_decimal(out: &mut [u8], at: usize, n: u64) -> usize
    requires { at < 2 ^ 62 }
    ensures { PutBytes (digits_of n) out.old out.new at result × (result ≤ at + 20) }
{
    if n < 10 {
        return put_byte(out, at, b'0' + n as u8);
    }
    let next = put_decimal(out, at, n / 10);
    put_byte(out, next, b'0' + (n % 10) as u8)
}

// A number and the byte that ends it.
pub fn put_field(out: &mut [u8], at: usize, n: u64, end: u8) -> usize
    requires { at < 2 ^ 62 }
    ensures { PutBytes (field_text n end) out.old out.new at result × (result ≤ at + 21) }
{
    let next = put_decimal(out, at, n);
    put_byte(out, next, end)
}
