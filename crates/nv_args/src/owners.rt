//! Modes, owners and groups as a user writes them.

ghost use Rattle.std.specs.Prelude.{◌≡◌, ◌<◌, ◌^◌, ℕ, Option, IfSome, IsNone, option_map};
ghost use Rattle.std.specs.Str.Parse.{IsNumeral, digits_value, without_leading_plus};
ghost use Rattle.nv_args.specs.Changes.{AreOwners, IsId, IsMode};

/// One more than the greatest mode.
const MODES: u32 = 4096;

/// The mode that a text writes in octal, where it is one below 4096.
pub(crate) fn mode_of(text: &str) -> Option<u32>
    ensures some { IfSome result (IsMode text.now) }
    ensures none { IsNone result → (mode : ℕ) → ¬ IsMode text.now mode }
{
    let mode = octal(text)?;
    (mode < MODES).then_some(mode)
}

// The octal number below 2^32 that a text writes.
fn octal(text: &str) -> Option<u32>
    ensures some { IfSome result (λ number. IsNumeral 8 (without_leading_plus text.now) × (number ≡ digits_value 8 (without_leading_plus text.now))) }
    ensures none { IsNone result → IsNumeral 8 (without_leading_plus text.now) → ¬ (digits_value 8 (without_leading_plus text.now) < 2 ^ 32) }
{
    u32::from_str_radix(text, 8).ok()
}

/// The owner and the group that are to be set.
#[derive(Clone, Copy)]
pub(crate) struct Owners {
    pub(crate) owner: u32,
    pub(crate) group: Option<u32>,
}

/// The numbers of an owner, and behind a colon of a group.
pub(crate) fn owners_of(text: &str) -> Option<Owners>
    ensures some { IfSome result (λ owners. AreOwners text.now owners.owner owners.group) }
    ensures none { IsNone result → (owner : ℕ) (group : Option ℕ) → ¬ AreOwners text.now owner group }
{
    match text.split_once(':') {
        Some((owner, group)) => Some(Owners {
            owner: id_of(owner)?,
            group: Some(id_of(group)?),
        }),
        None => Some(Owners {
            owner: id_of(text)?,
            group: None,
        }),
    }
}

// The number below 2^32 that a text writes.
fn id_of(text: &str) -> Option<u32>
    ensures some { IfSome result (IsId text.now) }
    ensures none { IsNone result → (number : ℕ) → ¬ IsId text.now number }
{
    text.parse().ok()
}
