//! Which shard a hash is on, how many shards there may be, and how a capacity is shared out.
ghost use Rattle.std.specs.Prelude.{◌≡◌, ◌+◌, ◌^◌, ◌<◌, ◌≤◌, ◌↔◌, IsTrue, MatchOption};
ghost use Rattle.std.specs.Int.{IsNextPowerOfTwo};
ghost use Rattle.dashmap_table.specs.Route.{IsShardAmount, route_of, share_of, HasNoShare, wanted_shards};

/// Whether a map may have so many shards: a power of two from 2 to 65,536.
///
/// ```text
/// let good = is_shard_amount(8);   // true
/// ```
pub fn is_shard_amount(shards: usize) -> bool
    ensures { IsTrue result ↔ IsShardAmount shards }
{
    if shards < 2 || shards > 1 << 16 {
        return false;
    }
    shards == 1 << shards.ilog2()
}

/// The number of the shard that a hash belongs to. The seven highest bits of the hash play no part in it, so a table
/// may keep them beside each pair and tell most keys of a shard apart by them.
///
/// With 4 shards the hashes 0, 2^55, 2^56 and 2^57 - 1 are on the shards 0, 1, 2 and 3, and 2^57 is on shard 0 again.
///
/// ```text
/// let shard = route(1 << 55, 4);   // 1
/// ```
pub fn route(hash: u64, shards: usize) -> usize
    requires { IsShardAmount shards }
    ensures value { result ≡ route_of hash shards }
    ensures below { result < shards }
{
    ((hash << 7) >> (64 - (shards as u64).ilog2())) as usize
}

/// How many pairs each shard has to have room for, so that all of them together have room for `capacity`.
///
/// `None` where there is no such share: `capacity` can't be rounded up to a multiple of `shards`, or the share is above
/// 2^48. A capacity of 0 gives 0, and 5 shared out over 4 shards gives 2.
///
/// ```text
/// let share = capacity_share(5, 4);   // Some(2)
/// ```
pub fn capacity_share(capacity: usize, shards: usize) -> Option<usize>
    requires { IsShardAmount shards }
    ensures { MatchOption result (HasNoShare capacity shards)
        (λ share. (share ≡ share_of capacity shards) × (capacity + shards ≤ 2 ^ 64) × (share ≤ 2 ^ 48)) }
{
    let rounded = capacity.checked_add(shards - 1)?;
    let share = rounded / shards;
    if share > 1 << 48 { None } else { Some(share) }
}

/// How many shards a map gets for so many threads: the least power of two that isn't below four for each, where no
/// threads count as one.
///
/// `None` where that is above 65,536, so from 16,385 threads on.
///
/// ```text
/// let shards = default_shards(3);   // Some(16)
/// ```
pub fn default_shards(parallelism: usize) -> Option<usize>
    ensures { MatchOption result (2 ^ 16 < wanted_shards parallelism)
        (λ shards. IsNextPowerOfTwo (wanted_shards parallelism) shards × IsShardAmount shards) }
{
    if parallelism > 1 << 14 {
        return None;
    }
    let wanted = 4 * parallelism.max(1);
    wanted.checked_next_power_of_two()
}
