//! What holds of every handler.

ghost use Rattle.std.specs.Prelude.{◌≡◌, ℕ, Bool, true, false, List, [], ◌++◌};
ghost use Rattle.handlers.specs.Calls.{HandlerCall, Take, Give, End, Arises, WasHanded};
ghost use Rattle.handlers.specs.contracts.handler.HandlerFault.{the_view};
ghost use Rattle.handlers.specs.declared.handler.HandlerFault.TheInside.{Inside as Fields};

use crate::handler::Handler;

/// What contracts see of a fault is, field by field, what its public fields hold.
pub fn fields_are_public()
    ensures { (fault : Fields) → the_view fault ≡ record { number = fault.number } }
{}

/// Calls that are made in turn are made as one list.
pub fn calls_in_turn<H: Handler>()
    ensures { (made mid value : H) (first second : List HandlerCall) → Arises H.steps made first mid
        → Arises H.steps mid second value → Arises H.steps made (first ++ second) value }
{}

/// And one list of calls is made in turn.
pub fn calls_split<H: Handler>()
    ensures { (made value : H) (first second : List HandlerCall) → Arises H.steps made (first ++ second) value
        → (mid : H) × Arises H.steps made first mid × Arises H.steps mid second value }
{}

/// What was handed, and whether the end was said, is determined by the list of calls.
pub fn one_handing<H: Handler>()
    ensures { (made value : H) (some other : List ℕ) (ended end : Bool)
        (one : WasHanded H.steps made some ended value)
        (two : WasHanded H.steps made other end value) → one.calls ≡ two.calls
        → (some ≡ other) × (ended ≡ end) }
{}

/// What was just made was handed nothing, and that grows with each call that is answered: by its bytes, by nothing, by
/// the end.
pub fn handed_on<H: Handler>()
    ensures made { (made : H) → WasHanded H.steps made [] false made }
    ensures take { (made value next : H) (bytes more : List ℕ) → WasHanded H.steps made bytes false value
        → H.steps value (Take more) next → WasHanded H.steps made (bytes ++ more) false next }
    ensures give { (made value next : H) (bytes : List ℕ) (ended : Bool) (room : ℕ) (more : List ℕ)
        → WasHanded H.steps made bytes ended value → H.steps value (Give room more) next
        → WasHanded H.steps made bytes ended next }
    ensures end { (made value next : H) (bytes : List ℕ) → WasHanded H.steps made bytes false value
        → H.steps value End next → WasHanded H.steps made bytes true next }
{}
