//! What turns did together.

ghost use Rattle.std.specs.Prelude.{◌≡◌};
ghost use Rattle.kbroker.specs.Server.{together};

use kb_node::Turn;

/// Two sums, number by number. None of them begins anew: it stays at the greatest number.
pub fn together(sum: &Turn, turn: &Turn) -> Turn
    ensures { result ≡ together sum.now turn.now }
{
    Turn {
        accepted: sum.accepted.saturating_add(turn.accepted),
        read: sum.read.saturating_add(turn.read),
        written: sum.written.saturating_add(turn.written),
        closed: sum.closed.saturating_add(turn.closed),
        turned_away: sum.turned_away.saturating_add(turn.turned_away),
        denied: sum.denied.saturating_add(turn.denied),
        strangers: sum.strangers.saturating_add(turn.strangers),
        unread: sum.unread.saturating_add(turn.unread),
        idle: sum.idle.saturating_add(turn.idle),
        slow: sum.slow.saturating_add(turn.slow),
        over_limit: sum.over_limit.saturating_add(turn.over_limit),
    }
}
