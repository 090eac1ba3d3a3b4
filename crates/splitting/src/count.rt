// Counts that no input is too long for: exact below 2^63, where they stay.
ghost use Rattle.std.specs.Prelude.{◌≡◌, ◌+◌};
ghost use Rattle.splitting.specs.Count.{counted};

const MOST: u64 = 9223372036854775808;

pub fn count(before: u64, more: u64) -> u64
    ensures { result ≡ counted (before + more) }
{
    before.saturating_add(more).min(MOST)
}
