//! How shards are cut into pieces.
ghost use Rattle.std.specs.Prelude.{◌≡◌, ◌<◌, ◌≤◌};
ghost use Rattle.dashmap_view.specs.Parallel.Pieces.{first_shard};

/// The first shard of a piece, where so many shards are cut into contiguous pieces whose sizes differ by one at the
/// most, larger pieces first. The piece behind the last begins behind the last shard: 8 shards in 3 pieces are cut at
/// 0, 3, 6 and 8.
///
/// ```text
/// let third = first_of(8, 3, 1);   // the second of three pieces of 8 shards begins at the shard 3
/// ```
pub fn first_of(shards: usize, pieces: usize, number: usize) -> usize
    requires some { 0 < pieces }
    requires within { number ≤ pieces }
    ensures value { result ≡ first_shard shards pieces number }
    ensures within { result ≤ shards }
    ensures last { number ≡ pieces → result ≡ shards }
{
    let larger = shards % pieces;
    number * (shards / pieces) + number.min(larger)
}
