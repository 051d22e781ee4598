//! What holds of whole checks.

ghost use Rattle.std.specs.Prelude.{◌≡◌, ℕ, List, true};
ghost use Rattle.nv_region.specs.Region.{Region};
ghost use Rattle.nv_image_check.specs.Workers.{is_worker_count};
ghost use Rattle.nv_image_check.specs.Checking.{IsCheck, IsCheckAs};
ghost use Rattle.nv_text.specs.declared.output.Output.{Output as OutputValue};

/// A check of a region by so many workers has one output and one exit status.
pub fn one_check()
    ensures text { (region : Region) (workers : ℕ) (text other : List ℕ) (status another : ℕ) → IsCheck region workers text status → IsCheck region workers other another → text ≡ other }
    ensures status { (region : Region) (workers : ℕ) (text other : List ℕ) (status another : ℕ) → IsCheck region workers text status → IsCheck region workers other another → status ≡ another }
{}

/// What a check by some workers may write, and its exit status, are those of a check by any others: 1 to 64 of them.
pub fn any_workers()
    ensures { (output : OutputValue) (region : Region) (workers others : ℕ) (text : List ℕ) (status : ℕ) → is_worker_count workers ≡ true → is_worker_count others ≡ true
        → IsCheckAs output region workers text status → IsCheckAs output region others text status }
{}
