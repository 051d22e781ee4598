//! Sizes as a user writes them.

ghost use Rattle.std.specs.Prelude.{◌≡◌, ◌<◌, ◌*◌, ◌^◌, ℕ, Some, IfSome, IsNone};
ghost use Rattle.nv_args.specs.Words.{IsNumber, SizeOf};

use crate::reading::number_of;

const BLOCK_BYTES: u64 = 4096;

/// The number of blocks of a size: a number of bytes, or one with K, M or G behind it.
pub(crate) fn size_of(text: &str) -> Option<u64>
    ensures some { IfSome result (SizeOf text.now) }
    ensures none { IsNone result → (blocks : ℕ) → ¬ SizeOf text.now blocks }
{
    if let Some(digits) = text.strip_suffix('K') {
        return blocks_of(digits, 1 << 10);
    }
    if let Some(digits) = text.strip_suffix('M') {
        return blocks_of(digits, 1 << 20);
    }
    if let Some(digits) = text.strip_suffix('G') {
        return blocks_of(digits, 1 << 30);
    }
    blocks_of(text, 1)
}

// The blocks of so many units of bytes, where they are full.
fn blocks_of(digits: &str, unit: u64) -> Option<u64>
    ensures some { IfSome result (λ blocks. (number : ℕ) × IsNumber (Some digits.now) number × (number * unit ≡ blocks * 4096) × (number * unit < 2 ^ 64)) }
    ensures none { IsNone result → (number blocks : ℕ) → IsNumber (Some digits.now) number → number * unit ≡ blocks * 4096 → ¬ (number * unit < 2 ^ 64) }
{
    let bytes = number_of(Some(digits))?.checked_mul(unit)?;
    (bytes % BLOCK_BYTES == 0).then_some(bytes / BLOCK_BYTES)
}
