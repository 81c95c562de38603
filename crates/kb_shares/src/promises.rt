//! Laws about whole lists of calls, each as the contract of a function with an empty body.

ghost use Rattle.std.specs.Prelude.{◌≡◌, ◌≤◌, ◌<◌, ◌+◌, ◌-◌, ◌*◌, ◌&&◌, ◌++◌, ◌∷◌};
ghost use Rattle.std.specs.Prelude.{[], ℕ, List, Some, true, length, nat_le, nat_lt, slice_get};
ghost use Rattle.kb_shares.specs.declared.share.Share.{Share};
ghost use Rattle.kb_shares.specs.Shares.{Pool, are_shares, idle_pool, shares_of, holder_at, used_by, own_of, most_of, all_above};
ghost use Rattle.kb_shares.specs.Shares.{with_used, has_room};
ghost use Rattle.kb_shares.specs.Turns.{Lines, Step, holders_of, after_next, after_steps, turns_in};
ghost use Rattle.kb_shares.specs.Calls.{Call, after_all, is_of, is_put, none_is, PutsPieces, held, total_of};

/// A holder within its own part gets what it asks for, whatever others hold: after any calls of anybody on a new budget, and after any
/// calls of others since it last looked. `take` and `has_room` answer by just this `has_room`.
pub fn own_part_is_free()
    // So it is after any calls.
    ensures free { (total : ℕ) (shares : List Share) (calls : List Call) (i n : ℕ) → are_shares total shares ≡ true
        → used_by i (after_all calls (idle_pool total shares)) + n ≤ own_of i (idle_pool total shares)
        → has_room i n (after_all calls (idle_pool total shares)) ≡ true }
    // Calls of others change nothing of a holder.
    ensures others { (calls : List Call) (i : ℕ) (p : Pool) → none_is (is_of i) calls ≡ true
        → holder_at i (after_all calls p) ≡ holder_at i p }
    // No call changes a share.
    ensures shares { (calls : List Call) (p : Pool)
        → shares_of (after_all calls p) ≡ shares_of p }
{}

/// What all hold never passes the total, and nobody passes its limit, where all of it was taken. Where pieces are put, each for a holder
/// that is open then, a holder passes its limit by less than a piece, and all together the total by less than a piece for each holder.
pub fn nobody_takes_too_much()
    ensures start { (total : ℕ) (shares : List Share) → are_shares total shares ≡ true → total_of (idle_pool total shares) ≡ total }
    ensures taken { (total : ℕ) (shares : List Share) (calls : List Call) → are_shares total shares ≡ true → none_is is_put calls ≡ true
        → held (after_all calls (idle_pool total shares)) ≤ total }
    ensures put { (total : ℕ) (shares : List Share) (calls : List Call) (size : ℕ) → are_shares total shares ≡ true
        → PutsPieces size calls (idle_pool total shares)
        → held (after_all calls (idle_pool total shares)) ≤ total + length shares * (size - 1) }
    ensures limit { (total : ℕ) (shares : List Share) (calls : List Call) (i : ℕ) → none_is is_put calls ≡ true
        → used_by i (after_all calls (idle_pool total shares)) ≤ most_of i (idle_pool total shares) }
    ensures put_limit { (total : ℕ) (shares : List Share) (calls : List Call) (size i : ℕ) → PutsPieces size calls (idle_pool total shares)
        → used_by i (after_all calls (idle_pool total shares)) ≤ most_of i (idle_pool total shares) + (size - 1) }
{}

/// Where nobody was put past the common rest, a holder has room exactly where it stays within its limit, and what all then have above
/// their parts fits the common rest.
pub fn room_is_exact()
    ensures { (p : Pool) (i n : ℕ) → i < length p.holders → all_above p ≤ p.common
        → has_room i n p ≡ (nat_le (used_by i p + n) (most_of i p) && nat_le (all_above (with_used i (used_by i p + n) p)) p.common) }
{}

/// Nobody is passed over: a holder that waits behind some others is next after as many turns, whoever comes or goes in between. So between
/// two turns of a holder each other one that waits has one, however many members of the first wait.
pub fn turns_go_round()
    ensures passed { (steps : List Step) (lines : Lines) (k h : ℕ) → slice_get (holders_of lines) (turns_in steps + k) ≡ Some h
        → slice_get (holders_of (after_steps steps lines)) k ≡ Some h }
    // One that had a turn comes behind all others.
    ensures behind { (l : ℕ × List ℕ) (lines : Lines) → nat_lt 1 (length l.1) ≡ true
        → holders_of (after_next (l ∷ lines)) ≡ holders_of lines ++ l.0 ∷ [] }
{}
