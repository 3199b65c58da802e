//! What holds of every legal history. The bodies are empty: the clauses are the laws.

ghost use Rattle.std.specs.Prelude.{◌≡◌, ◌≢◌, ◌++◌, ◌∷◌, [], ℕ, List};
ghost use Rattle.std.specs.List.Sorted.{IsStrictlyIncreasing};
ghost use Rattle.pool_state.specs.declared.limits.Config.{Config};
ghost use Rattle.pool_state.specs.declared.listing.Listing.{Listing};
ghost use Rattle.pool_state.specs.declared.call.Call.{Call};
ghost use Rattle.pool_state.specs.declared.call.Reply.{Reply};
ghost use Rattle.pool_state.specs.declared.call.Reply.TheVariants.{Conn, Refused};
ghost use Rattle.pool_state.specs.declared.call.Refusal.TheVariants.{Spent};
ghost use Rattle.pool_state.specs.History.{Entry, entry, allowed, blocked, disallows, next_number, unblocks};
ghost use Rattle.pool_state.specs.Table.{may_refuse};
ghost use Rattle.pool_state.specs.Shown.{Shown, IsLegal, ShowsHistory, reply_after};
ghost use Rattle.pool_state.specs.Added.{added};
ghost use Rattle.pool_state.specs.Bounded.{IsBounded, refusal_numbers};
ghost use Rattle.pool_state.specs.Ordered.{IsEachOnce, KeepsOrder};
ghost use Rattle.pool_state.specs.Rows.{WorkedRows};

/// What a legal history shows keeps to the limits.
pub fn bounded()
    ensures { (config : Config) (history : List Entry) → IsLegal config history
        → IsBounded config (Shown config history) }
{}

/// What the table of refusals asks of a listing is asked of the history.
pub fn table_asks_history()
    ensures { (config : Config) (history : List Entry) → IsLegal config history → ShowsHistory config history }
{}

/// The refusals of each call stand in the order of their numbers, so the first that holds is the lowest.
pub fn lowest_first()
    ensures { (config : Config) (next : ℕ) (shown : Listing) (call : Call)
        → IsStrictlyIncreasing (refusal_numbers (may_refuse config next shown call)) }
{}

/// What `Listing::add` leaves is what the longer history shows.
pub fn added_is_shown()
    ensures { (config : Config) (history : List Entry) (caller : ℕ) (call : Call) (reply : Reply)
        → IsLegal config (history ++ entry caller call reply ∷ [])
        → added (Shown config history) call reply ≡ Shown config (history ++ entry caller call reply ∷ []) }
{}

/// A beginning of a legal history is legal.
pub fn beginning_is_legal()
    ensures { (config : Config) (beginning later : List Entry) → IsLegal config (beginning ++ later)
        → IsLegal config beginning }
{}

/// The last reply of a legal history is the one that its call is answered there, and isn't Spent.
pub fn last_reply()
    ensures { (config : Config) (history : List Entry) (last : Entry) → IsLegal config (history ++ last ∷ [])
        → (last.reply ≡ reply_after config history last.call) × (last.reply ≢ Refused Spent) }
{}

/// The number that a call is answered is the next one.
pub fn next_number_is_given()
    ensures { (config : Config) (history : List Entry) (call : Call) (number : ℕ)
        → reply_after config history call ≡ Conn number → number ≡ next_number config history }
{}

/// No peer stands twice among the blocked or the allowed ones.
pub fn each_peer_once()
    ensures blocked { (history : List Entry) → IsEachOnce (blocked history) }
    ensures allowed { (history : List Entry) → IsEachOnce (allowed history) }
{}

/// The blocked and the allowed peers stand in the order in which they came.
pub fn peers_keep_their_order()
    ensures blocked { KeepsOrder blocked unblocks }
    ensures allowed { KeepsOrder allowed disallows }
{}

/// The definitions give the replies and listings of worked runs of this project's profile.
pub fn worked_rows()
    ensures { WorkedRows }
{}
