//! What holds of each command.

ghost use Rattle.std.specs.Prelude.{◌≡◌, ℕ, List, false};
ghost use Rattle.nv_line.specs.Request.{Request};
ghost use Rattle.nv_session.specs.Alike.{AlikeStates, handles_words};
ghost use Rattle.nv_session.specs.Machine.{State, Step, first_state, writes};

/// From one state a command prints one text, unless a stop was set for it. It leaves one state too, unless it is a file call
/// that writes: what such a call stores into words that nothing reads isn't said.
pub fn one_step()
    ensures text { (old new next : State) (request : Request) (text other : List ℕ) → old.armed ≡ false → Step old request text new → Step old request other next → text ≡ other }
    ensures left { (old new next : State) (request : Request) (text other : List ℕ) → old.armed ≡ false → writes request ≡ false → Step old request text new → Step old request other next
        → new ≡ next }
{}

/// From alike states a command prints one text and leaves alike states, unless a stop was set for it, or it shows or sets words by
/// their addresses. The state before the first line is alike itself, and so is what a command leaves of one that is.
pub fn alike_states_answer_alike()
    ensures text { (old other new next : State) (request : Request) (text another : List ℕ) → AlikeStates old other → old.armed ≡ false → handles_words request ≡ false
        → Step old request text new → Step other request another next → text ≡ another }
    ensures left { (old other new next : State) (request : Request) (text another : List ℕ) → AlikeStates old other → old.armed ≡ false → handles_words request ≡ false
        → Step old request text new → Step other request another next → AlikeStates new next }
    ensures first { AlikeStates first_state first_state }
    ensures itself { (old new : State) (request : Request) (text : List ℕ) → AlikeStates old old → old.armed ≡ false → Step old request text new → AlikeStates new new }
{}
