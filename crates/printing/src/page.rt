//! Texts of files, as they are printed.
ghost use Rattle.std.specs.Prelude.{◌≡◌, ◌<◌, true, [], ◌++◌, OnOk};
ghost use Rattle.printing.specs.Pages.{begun, digit, paged, printed};

use std::alloc::AllocError;

/// The hexadecimal digit of a number below 16.
// `char::from_digit` is no plainer: it gives an `Option<char>`, which is a byte only after two steps more.
fn hex_digit(n: u8) -> u8
    requires { n < 16 }
    ensures { result ≡ digit n }
{
    if n < 10 { b'0' + n } else { b'a' + (n - 10) }
}

/// Appends a byte of a text, as `\\xHH` where it is no character of a line.
fn put_byte(b: u8, out: &mut Vec<u8>) -> Result<(), AllocError>
    ensures { OnOk result (out.new.items ≡ out.old.items ++ printed b) }
{
    match b {
        b'\n' | b'\t' | b' '..=b'~' => out.extend_from_slice(&[b]),
        _ => out.extend_from_slice(&[b'\\', b'x', hex_digit(b / 16), hex_digit(b % 16)]),
    }
}

/// Appends what stands before a byte: two spaces where a line begins.
fn put_margin(fresh: bool, out: &mut Vec<u8>) -> Result<(), AllocError>
    ensures { OnOk result (out.new.items ≡ out.old.items ++ begun fresh) }
{
    out.extend_from_slice(if fresh { b"  " } else { b"" })
}

/// Appends the end of a last line that has none.
fn put_end(fresh: bool, out: &mut Vec<u8>) -> Result<(), AllocError>
    ensures { OnOk result (out.new.items ≡ out.old.items ++ paged fresh []) }
{
    out.extend_from_slice(if fresh { b"" } else { b"\n" })
}

/// Appends the lines of a text, each behind two spaces.
pub fn put_page(text: &[u8], out: &mut Vec<u8>) -> Result<(), AllocError>
    ensures { OnOk result (out.new.items ≡ out.old.items ++ paged true text.now) }
{
    // A flag and no list of lines: slices have no `split_inclusive`, and `split` gives one empty line more behind the last line end.
    let mut fresh = true;
    for b in text {
        put_margin(fresh, out)?;
        put_byte(*b, out)?;
        fresh = *b == b'\n';
    }
    put_end(fresh, out)
}
