// Worked products, and the operations on slices beside plain loops.
ghost use Rattle.std.specs.Prelude.{◌≤◌};

use gf256::{add, field_laws, inv, mul, mul_add, pow, same};

#[test]
fn known_products(rt: HostRuntime) {
    let made = [mul(2, 0x80), inv(2), pow(2, 8), add(5, 3)];
    assert!(rt; made == [0x1D, 0x8E, 0x1D, 6], "{made:?}");
    field_laws();
}

// Bytes that differ from place to place, where `seed` picks the run.
fn sample(seed: u8) -> [u8; 300] {
    let mut bytes = [0; 300];
    let mut byte = seed;
    for slot in bytes.iter_mut() {
        *slot = byte;
        byte = byte.wrapping_mul(5).wrapping_add(77);
    }
    bytes
}

// The product by shifts and the reducing number, with no table.
fn shifted_product(a: u8, b: u8) -> u8 {
    let mut sum = 0;
    let mut shifted = a;
    for k in 0..8u32 {
        if (b >> k) & 1 == 1 {
            sum ^= shifted;
        }
        let carries = shifted >= 128;
        shifted = shifted.wrapping_mul(2);
        if carries {
            shifted ^= 0x1D;
        }
    }
    sum
}

// Whether the multiple is added in the first `len` bytes, and the others stay.
fn adds_multiple(len: usize, c: u8) -> bool
    requires { len ≤ 300 }
{
    let src = sample(9);
    let mut dst = sample(3);
    let old = sample(3);
    mul_add(&mut dst[..len], &src[..len], c);
    let mut same = true;
    for i in 0..300usize {
        let want = if i < len {
            old[i] ^ shifted_product(c, src[i])
        } else {
            old[i]
        };
        same = same && dst[i] == want;
    }
    same
}

#[test]
fn adds_multiples_of_each_length(rt: HostRuntime) {
    for len in 0..301usize {
        for c in [0, 1, 2, 0x1D, 0x8E, 255] {
            assert!(rt; adds_multiple(len, c), "{len} bytes at {c}");
        }
    }
}

// Whether the first `len` bytes are the same as they are, and others with each byte changed.
fn compares(len: usize) -> bool
    requires { len ≤ 300 }
{
    let a = sample(9);
    let mut b = sample(9);
    let mut right = same(&a[..len], &b[..len]);
    for i in 0..len {
        b[i] ^= 16;
        right = right && !same(&a[..len], &b[..len]);
        b[i] ^= 16;
    }
    right
}

#[test]
fn compares_each_length(rt: HostRuntime) {
    for len in 0..301usize {
        assert!(rt; compares(len), "{len} bytes");
    }
}
