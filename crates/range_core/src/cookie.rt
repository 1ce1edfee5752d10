//! The cookie of a range: it rises with each event that changes a kind, and is used up at its end.
ghost use Rattle.std.specs.Prelude.{◌≡◌, ◌<◌, ◌+◌, ◌^◌, ◌&&◌, ◌==◌, None, nat_le, nat_lt, not};
ghost use Rattle.range_core.specs.EntryCounts.{one_where};
ghost use Rattle.range_core.specs.Refusals.{where_true};
ghost use Rattle.range_core.specs.declared.fault.EventFault.TheVariants.{Stale, Worn};

use crate::fault::EventFault;
use crate::sample::Sample;
use iob_base::WORN;

/// The cookie after an event that changed so many kinds.
pub(crate) fn next_cookie(cookie: u64, changed: u64) -> u64
    requires { 0 < changed → cookie + 1 < 2 ^ 64 }
    ensures { result ≡ cookie + one_where (nat_lt 0 changed) }
{
    if changed == 0 { cookie } else { cookie + 1 }
}

/// The refusal of an event that was handed a sample of another cookie.
pub(crate) fn stale_stop(cookie: u64, seen: Sample) -> Option<EventFault>
    ensures refusal { result ≡ where_true (not (seen.cookie == cookie)) (Stale seen.cookie cookie) }
    ensures fresh { result ≡ None → seen.cookie ≡ cookie }
{
    if seen.cookie == cookie {
        return None;
    }
    Some(EventFault::Stale {
        sample: seen.cookie,
        now: cookie,
    })
}

/// The refusal of an event that would change so many kinds, where the cookie is used up.
pub(crate) fn worn_stop(cookie: u64, changed: u64) -> Option<EventFault>
    ensures { result ≡ where_true (nat_lt 0 changed && nat_le WORN cookie) (Worn cookie) }
{
    if changed == 0 {
        return None;
    }
    if cookie < WORN {
        return None;
    }
    Some(EventFault::Worn { cookie })
}
