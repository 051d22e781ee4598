//! What follows from the definitions alone.

ghost use Rattle.std.specs.Prelude.{◌≡◌, ℕ, List, [], Option, ⊤};
ghost use Rattle.nv_region.specs.Region.{Region};
ghost use Rattle.nv_super.specs.declared.owners.Run.{Run};
ghost use Rattle.nv_super.specs.declared.kind.Kind.{Kind};
ghost use Rattle.nv_super.specs.declared.superblock.Super.{Super};
ghost use Rattle.nv_super.specs.Layout.{Layout};
ghost use Rattle.nv_super.specs.Super.{IsSuper};
ghost use Rattle.nv_inode.specs.Upgraded.{IsUpgraded};
ghost use Rattle.nv_journal.specs.Undo.{undone};
ghost use Rattle.nv_entry.specs.declared.entry.Entry.{Entry};
ghost use Rattle.nv_mounted.specs.Held.{Held, Store};
ghost use Rattle.nv_outcome.specs.Outcome.{IsOutcome, Outcome};
ghost use Rattle.nv_outcome.specs.Same.{SameOutcome};
ghost use Rattle.nv_paths.specs.Seen.{tree_of};
ghost use Rattle.nv_steps.specs.declared.planning.Plan.{Plan};
ghost use Rattle.nv_tree.specs.Tree.{Node};
ghost use Rattle.nv_tree.specs.Refusals.{clean_tests};
ghost use Rattle.nv_calls.specs.Alike.{AreAlike, InodeCallsKeepAlike, IsAllowed, IsFaultlessMount, KeepsAlike, NameCallsKeepAlike, WasDone};
ghost use Rattle.nv_calls.specs.Decided.{IsDecided, IsDecidedBy};
ghost use Rattle.nv_calls.specs.Effects.{logs_clean};
ghost use Rattle.nv_calls.specs.Effects.{makes_no_change};
ghost use Rattle.nv_calls.specs.Growing.{GivesSlot};
ghost use Rattle.nv_calls.specs.GrownLogs.{ShowsGrownLog};
ghost use Rattle.nv_calls.specs.LinkCalls.{ShowsBothGrew};
ghost use Rattle.nv_calls.specs.Mount.{Mount};
ghost use Rattle.nv_calls.specs.Listing.{ListsNamesIn};
ghost use Rattle.nv_calls.specs.NameCalls.{ShowsCreated};
ghost use Rattle.nv_calls.specs.Reading.{IsRead};
ghost use Rattle.nv_calls.specs.RemoveCalls.{ShowsRemoved};
ghost use Rattle.nv_calls.specs.ReplaceLogs.{ShowsBothLess, ShowsThreeGrew};
ghost use Rattle.nv_calls.specs.SizeCall.{ShowsResizedLog};
ghost use Rattle.nv_tree.specs.Stat.{IsStat};
ghost use Rattle.nv_calls.specs.World.{world_of};
ghost use Rattle.nv_calls.specs.WriteCall.{ShowsLogWrite};
ghost use Rattle.nv_tree.specs.declared.stat.Stat.{Stat};

/// What a writing call leaves is decided by what was held, the free pools, the CPU and the arguments: two regions of which its
/// clause on logs holds show the same. So their rows, free lists and trees are the same too.
pub fn calls_are_decided()
    ensures grown { (l : Layout) (pools : List (List Run)) (cpu : ℕ) (held : Store) (i : ℕ) (h : Held) (entries : List Entry)
        → IsDecided l (λ S. ShowsGrownLog S l pools cpu held i h entries) }
    ensures both { (l : Layout) (pools : List (List Run)) (cpu : ℕ) (held : Store) (i : ℕ) (h : Held) (entries : List Entry) (j : ℕ) (g : Held) (others : List Entry)
        → IsDecided l (λ S. ShowsBothGrew S l pools cpu held i h entries j g others) }
    ensures created { (l : Layout) (pools : List (List Run)) (cpu : ℕ) (held : Store) (kind : Kind) (mode time j d : ℕ) (h : Held) (name : List ℕ)
        → IsDecidedBy (λ grown. (rest : List (List Run)) × GivesSlot l pools cpu j grown rest) (λ S. ShowsCreated S l pools cpu held kind mode time j d h name) }
    ensures less { (l : Layout) (pools : List (List Run)) (cpu : ℕ) (held : Store) (i : ℕ) (h : Held) (entries : List Entry) (e : ℕ) (g : Held) (others : List Entry) (j : ℕ)
        → IsDecided l (λ S. ShowsBothLess S l pools cpu held i h entries e g others j) }
    ensures three { (l : Layout) (pools : List (List Run)) (cpu : ℕ) (held : Store) (i : ℕ) (h : Held) (entries : List Entry) (e : ℕ) (g : Held) (others : List Entry) (j : ℕ) (f : Held)
        (lasts : List Entry) → IsDecided l (λ S. ShowsThreeGrew S l pools cpu held i h entries e g others j f lasts) }
    ensures removed { (l : Layout) (pools : List (List Run)) (cpu : ℕ) (held : Store) (d : ℕ) (h : Held) (entries : List Entry) (i : ℕ)
        → IsDecided l (λ S. ShowsRemoved S l pools cpu held d h entries i) }
    ensures resized { (l : Layout) (pools : List (List Run)) (cpu : ℕ) (held : Store) (i : ℕ) (h : Held) (node : Node) (size time : ℕ)
        → IsDecided l (λ S. ShowsResizedLog S l pools cpu held i h node size time) }
    ensures written { (m : Mount ⊤) (cpu : ℕ) (held : Store) (i : ℕ) (h : Held) (plan : Plan)
        → IsDecided m.layout (λ S. ShowsLogWrite S m cpu held i h plan) }
{}

/// A region without faults in which nothing is pending is alike itself. Alike regions have one outcome, and the calls that read
/// answer the same of both.
pub fn alike_regions()
    ensures itself { (R : Region) (o : Outcome) → IsOutcome R o → o.faults ≡ [] → undone o.sup R ≡ R → AreAlike R R }
    ensures outcome { (R S : Region) (o other : Outcome) → AreAlike R S → IsOutcome R o → IsOutcome S other → SameOutcome o other }
    ensures read { (R S : Region) (o other : Outcome) (names : List (List ℕ)) (offset count : ℕ) (bytes others : List ℕ) → AreAlike R S → IsOutcome R o → IsOutcome S other
        → IsRead (tree_of R o.rows) names offset count bytes → IsRead (tree_of S other.rows) names offset count others → bytes ≡ others }
    ensures stat { (R S : Region) (o other : Outcome) (names : List (List ℕ)) (stat another : Stat) → AreAlike R S → IsOutcome R o → IsOutcome S other
        → IsStat (tree_of R o.rows) names stat → IsStat (tree_of S other.rows) names another → stat ≡ another }
    ensures list { (R S : Region) (o other : Outcome) (names : List (List ℕ)) (lines others : List (List ℕ × ℕ)) → AreAlike R S → IsOutcome R o → IsOutcome S other
        → ListsNamesIn (tree_of R o.rows) names lines → ListsNamesIn (tree_of S other.rows) names others → lines ≡ others }
{}

/// Alike regions that are upgraded are alike.
pub fn upgraded_regions_are_alike()
    ensures { (R S T U : Region) (s : Super) → AreAlike R S → IsSuper R s → s.version ≡ 1 → IsUpgraded R s.cpus T → IsUpgraded S s.cpus U → AreAlike T U }
{}

/// Of alike regions that are mounted without faults, a call that no test refuses leaves alike regions; and `clean` answers the
/// same.
pub fn calls_keep_regions_alike()
    // The calls that change names, and those that change an inode.
    ensures names { NameCallsKeepAlike }
    ensures inodes { InodeCallsKeepAlike }
    ensures clean { (answer : Option ℕ) → KeepsAlike (λ R m p n. clean_tests (world_of m) (tree_of R m.rows) p) makes_no_change (logs_clean answer) }
    ensures cleaned { (answer other : Option ℕ) (R S T U : Region) (m k : Mount ⊤) (names : List (List ℕ)) → AreAlike R S → IsFaultlessMount R m → IsFaultlessMount S k
        → IsAllowed (λ R m p n. clean_tests (world_of m) (tree_of R m.rows) p) R m names
        → WasDone makes_no_change (logs_clean answer) R m names T → WasDone makes_no_change (logs_clean other) S k names U → answer ≡ other }
{}
