//! The even share of a loop.
ghost use Rattle.std.specs.Prelude.{◌≡◌, ◌<◌};
ghost use Rattle.kernel_syntax.specs.Share.{even_share_of};

/// The first iteration of a lane, counted from 0, and its number of iterations, where `total`
/// iterations are divided among `span` lanes in order and the first lanes take one more each where
/// they don't come out even.
pub fn even_share(total: u64, lane: u16, span: u16) -> (u64, u64)
    requires { lane < span }
    ensures { result ≡ even_share_of total lane span }
{
    let (lane, span) = (u64::from(lane), u64::from(span));
    let (each, over) = (total / span, total % span);
    let more = if lane < over { 1 } else { 0 };
    (lane * each + lane.min(over), each + more)
}
