// Headers by name.
ghost use Rattle.std.specs.Prelude.{◌≡◌, length, map, All, option_map};
ghost use Rattle.httparse.specs.Spans.{IsHeaderWithin, header_bytes};
ghost use Rattle.http_parts.specs.Headers.{value_named, values_named};

use httparse::spans::HeaderSpan;

/// The value of the first header of that name, whatever the case of its letters (RFC 9110, 5.1).
pub fn first_named<'b>(buf: &'b [u8], headers: &[HeaderSpan], name: &[u8]) -> Option<&'b [u8]>
    requires { All (IsHeaderWithin (length buf.now)) headers.now }
    ensures { option_map (λ v. v.now) result ≡ value_named name.now (map (header_bytes buf.now) headers.now) }
{
    for header in headers {
        if header.name.of(buf).eq_ignore_ascii_case(name) {
            return Some(header.value.of(buf));
        }
    }
    None
}

/// How many headers have that name, whatever the case of its letters (RFC 9110, 5.1).
pub fn count_named(buf: &[u8], headers: &[HeaderSpan], name: &[u8]) -> usize
    requires { All (IsHeaderWithin (length buf.now)) headers.now }
    ensures { result ≡ length (values_named name.now (map (header_bytes buf.now) headers.now)) }
{
    let mut count = 0;
    for header in headers {
        if header.name.of(buf).eq_ignore_ascii_case(name) {
            count += 1;
        }
    }
    count
}
