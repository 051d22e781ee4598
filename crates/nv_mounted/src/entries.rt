//! Nothing is wrong with the entries of a log that grew by right ones.

ghost use Rattle.std.specs.Prelude.{◌≡◌, ◌++◌, ℕ, List, [], ◌∷◌, Option, Some};
ghost use Rattle.nv_super.specs.declared.superblock.Super.{Super};
ghost use Rattle.nv_super.specs.declared.kind.Kind.{Kind};
ghost use Rattle.nv_super.specs.Layout.{Layout};
ghost use Rattle.nv_logpage.specs.declared.found.Placed.{Placed};
ghost use Rattle.nv_mounted.specs.Held.{Held, Store, with_inode};
ghost use Rattle.nv_mounted.specs.Mounted.{AreClean, IsFaultless};
ghost use Rattle.nv_mounted.specs.Blocks.{OwnsNew};
ghost use Rattle.nv_mounted.specs.Grows.{FitsBehind, NoEntryFault, SameNames};

/// An entry that fits behind others brings no fault.
pub fn clean_more()
    ensures { (s : Super) (kind : Kind) (i : ℕ) (entries : List Placed) (x : Placed) → NoEntryFault s kind i entries → FitsBehind s kind i entries x → NoEntryFault s kind i (entries ++ x ∷ []) }
{}

/// Nothing is wrong with the entries of all logs once one inode came, went or has a log with nothing wrong.
pub fn still_clean()
    ensures { (l : Layout) (held : Store) (i : ℕ) (o : Option Held) → ((new : Held) → o ≡ Some new → NoEntryFault l.sup new.kind i new.entries) → AreClean l held → AreClean l (with_inode held i o) }
{}

/// Nothing is wrong once one log grew that names nothing.
pub fn still_faultless()
    ensures { (l : Layout) (held : Store) (i : ℕ) (h new : Held) → held i ≡ Some h → SameNames l h new → NoEntryFault l.sup new.kind i new.entries → OwnsNew l held i (Some new)
        → IsFaultless l held → IsFaultless l (with_inode held i (Some new)) }
{}
