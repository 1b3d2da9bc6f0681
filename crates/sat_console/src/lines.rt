// The lines of the input. Each ends with LF or CR LF, and the last may lack its end.
ghost use Rattle.std.specs.Prelude.{◌≡◌, ◌<◌, ◌∷◌, length, ℕ, ◌≤◌, ◌≢◌, slice_index};
ghost use Rattle.std.specs.Str.Lines.{strip_carriage_return};
ghost use Rattle.sat_console.specs.Lines.{lines_of};

/// The first line, without its end, and what stands behind it.
pub(crate) fn next_line(input: &[u8]) -> (&[u8], &[u8])
    requires { 0 < length input.now }
    ensures lines { lines_of input.now ≡ result.0.now ∷ lines_of result.1.now }
    ensures shorter { length result.1.now < length input.now }
{
    let end = newline(input);
    if end == input.len() {
        return (input, &input[end..]);
    }
    let line = &input[..end];
    let behind = &input[end + 1..];
    (without_cr(line), behind)
}

// Where the first LF stands, or the length where there is none.
fn newline(input: &[u8]) -> usize
    ensures within { result ≤ length input.now }
    ensures before { (k : ℕ) → k < result → slice_index input.now k ≢ 10 }
    ensures found { result < length input.now → slice_index input.now result ≡ 10 }
{
    for (i, b) in input.iter().enumerate() {
        if *b == b'\n' {
            return i;
        }
    }
    input.len()
}

// The line without a CR at its end.
fn without_cr(line: &[u8]) -> &[u8]
    ensures { result.now ≡ strip_carriage_return line.now }
{
    let n = line.len();
    if n > 0 && line[n - 1] == b'\r' {
        &line[..n - 1]
    } else {
        line
    }
}
