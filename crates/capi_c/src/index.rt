// The index of a track that was opened, in lent room: filled once, it lets each lookup start at the checkpoint before its answer. It has six numbers for each 64
// samples begun. `lent` and `handle` are those of the opening.
ghost use Rattle.host_index.specs.Hands.{HandsIndex, HandsIndexedSample, HandsIndexedNumber};

// Fills the index, and puts into one place how many numbers it has.
#[unsafe(no_mangle)]
pub extern "C" fn chaldoref_index(
    lent: &[u8],
    handle: &[u64],
    index: &mut [u64],
    places: &mut [u64],
) -> u32
    ensures { HandsIndex lent.now handle.now index.old places.old result places.new index.new }
{
    capi::index::chaldoref_index(lent, handle, index, places)
}

// Sample n by a handle and its index, in eight places.
#[unsafe(no_mangle)]
pub extern "C" fn chaldoref_indexed_sample(
    lent: &[u8],
    handle: &[u64],
    index: &[u64],
    n: u32,
    places: &mut [i64],
) -> u32
    ensures { HandsIndexedSample lent.now handle.now index.now n places.old result places.new }
{
    capi::index::chaldoref_indexed_sample(lent, handle, index, n, places)
}

// The number of the sample at media time t and the position of its entry in stts, by a handle and its index, in two places.
#[unsafe(no_mangle)]
pub extern "C" fn chaldoref_indexed_sample_at(
    lent: &[u8],
    handle: &[u64],
    index: &[u64],
    t: u32,
    places: &mut [u64],
) -> u32
    ensures { HandsIndexedNumber lent.now handle.now index.now t places.old result places.new }
{
    capi::index::chaldoref_indexed_sample_at(lent, handle, index, t, places)
}
