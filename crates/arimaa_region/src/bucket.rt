//! The buckets of an index.
ghost use Rattle.std.specs.Prelude.{◌≡◌, ◌<◌};
ghost use Rattle.arimaa_region.specs.Hash.{bucket_of_hash, buckets_for};

/// How many buckets serve so many places: few enough that those of a long list stay in the
/// processor's cache.
#[tactic(auto, unfolding(crate::specs::Hash::buckets_for))]
pub(crate) fn buckets_for(room: u32) -> u32
    ensures value { result ≡ buckets_for room }
    ensures some { 0 < result }
{
    room / 4 + 1
}

/// The bucket of a hash, among so many.
#[tactic(auto, unfolding(crate::specs::Hash::bucket_of_hash))]
pub(crate) fn bucket(hash: u64, buckets: u32) -> u32
    requires { 0 < buckets }
    ensures value { result ≡ bucket_of_hash buckets hash }
    ensures small { result < buckets }
{
    let low = hash % (1 << 32);
    ((low * buckets as u64) >> 32) as u32
}
