//! The operations of SHA-256 (FIPS 180-4, sections 3 and 4.1.2) on the words of eight blocks in parallel, one block in
//! each lane of a vector.
ghost use Rattle.std.specs.Prelude.{◌≡◌, ℕ, ◌*◌, ◌%◌, ◌/◌, ◌^◌, ◌<◌, slice_index};
ghost use Rattle.std.specs.Int.{w32, rotate_right};
ghost use Rattle.std.specs.Int.Bits.{bit_xor, bit_and, bit_or};
ghost use Rattle.sha2.specs.Sha256.{add32, big_sigma0, big_sigma1, ch, maj, small_sigma0, small_sigma1};

use std::simd::u32x8;

#[inline(always)]
pub(crate) fn add(a: u32x8, b: u32x8) -> u32x8
    ensures { (j : ℕ) → j < 8 → slice_index result j ≡ add32 (slice_index a j) (slice_index b j) }
{
    a + b
}

#[inline(always)]
pub(crate) fn xor(a: u32x8, b: u32x8) -> u32x8
    ensures { (j : ℕ) → j < 8 → slice_index result j ≡ bit_xor (slice_index a j) (slice_index b j) }
{
    a ^ b
}

#[inline(always)]
pub(crate) fn and(a: u32x8, b: u32x8) -> u32x8
    ensures { (j : ℕ) → j < 8 → slice_index result j ≡ bit_and (slice_index a j) (slice_index b j) }
{
    a & b
}

#[inline(always)]
pub(crate) fn shift_right(x: u32x8, k: u32) -> u32x8
    requires { k < 32 }
    ensures { (j : ℕ) → j < 8 → slice_index result j ≡ slice_index x j / 2 ^ k }
{
    x >> u32x8::splat(k)
}

#[inline(always)]
pub(crate) fn shift_left(x: u32x8, k: u32) -> u32x8
    requires { k < 32 }
    ensures { (j : ℕ) → j < 8 → slice_index result j ≡ slice_index x j * 2 ^ k % 2 ^ 32 }
{
    x << u32x8::splat(k)
}

#[inline(always)]
pub(crate) fn or(a: u32x8, b: u32x8) -> u32x8
    ensures { (j : ℕ) → j < 8 → slice_index result j ≡ bit_or (slice_index a j) (slice_index b j) }
{
    a | b
}

#[inline(always)]
pub(crate) fn splat(x: u32) -> u32x8
    ensures { (j : ℕ) → j < 8 → slice_index result j ≡ x }
{
    u32x8::splat(x)
}

#[inline(always)]
pub(crate) fn rotate_right(x: u32x8, k: u32) -> u32x8
    requires low { 0 < k }
    requires high { k < 32 }
    ensures { (j : ℕ) → j < 8 → slice_index result j ≡ rotate_right w32 (slice_index x j) k }
{
    or(shift_right(x, k), shift_left(x, 32 - k))
}

#[inline(always)]
pub(crate) fn ch(x: u32x8, y: u32x8, z: u32x8) -> u32x8
    ensures { (j : ℕ) → j < 8 → slice_index result j ≡ ch (slice_index x j) (slice_index y j) (slice_index z j) }
{
    xor(z, and(x, xor(y, z)))
}

#[inline(always)]
pub(crate) fn maj(x: u32x8, y: u32x8, z: u32x8) -> u32x8
    ensures { (j : ℕ) → j < 8 → slice_index result j ≡ maj (slice_index x j) (slice_index y j) (slice_index z j) }
{
    xor(y, and(xor(x, y), xor(y, z)))
}

#[inline(always)]
pub(crate) fn big_sigma0(x: u32x8) -> u32x8
    ensures { (j : ℕ) → j < 8 → slice_index result j ≡ big_sigma0 (slice_index x j) }
{
    let near = rotate_right(x, 2);
    let middle = rotate_right(x, 13);
    let far = rotate_right(x, 22);
    let both = xor(near, middle);
    xor(both, far)
}

// The three functions below nest their rotations, which copies `x` fewer times than rotating it anew each time.
#[inline(always)]
pub(crate) fn big_sigma1(x: u32x8) -> u32x8
    ensures { (j : ℕ) → j < 8 → slice_index result j ≡ big_sigma1 (slice_index x j) }
{
    let inner = xor(x, rotate_right(x, 14));
    let middle = xor(x, rotate_right(inner, 5));
    rotate_right(middle, 6)
}

#[inline(always)]
pub(crate) fn small_sigma0(x: u32x8) -> u32x8
    ensures { (j : ℕ) → j < 8 → slice_index result j ≡ small_sigma0 (slice_index x j) }
{
    let inner = xor(x, rotate_right(x, 11));
    let outer = rotate_right(inner, 7);
    xor(outer, shift_right(x, 3))
}

#[inline(always)]
pub(crate) fn small_sigma1(x: u32x8) -> u32x8
    ensures { (j : ℕ) → j < 8 → slice_index result j ≡ small_sigma1 (slice_index x j) }
{
    let inner = xor(x, rotate_right(x, 2));
    let outer = rotate_right(inner, 17);
    xor(outer, shift_right(x, 10))
}
