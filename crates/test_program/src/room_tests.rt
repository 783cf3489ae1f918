// How many pages of a store are kept in memory, worked out by hand from what `CacheRoom` says.
use std::test::Fail;
use store_folder::opening::CacheRoom;

// So many stores, the bytes of the file of one, and the pages that are kept of it.
const ROOMS: [(usize, u64, usize); 10] = [
    // one store has 2,000 whatever its file
    (1, 0, 2_000),
    (1, 108_228_608, 2_000),
    // of two each has its share of 2,000, or what its file has, up to 2,000
    (2, 0, 1_000),
    (2, 108_228_608, 2_000),
    // of ten each has its share of 2,000, or what its file has and 40, up to its share of 4,000
    (10, 0, 200),
    (10, 819_200, 240),
    (10, 1_863_680, 400),
    (10, 108_228_608, 400),
    // of 256 each has 40
    (256, 0, 40),
    (256, 108_228_608, 40),
];

#[test]
fn rooms_of_stores(rt: HostRuntime) -> Result<(), Fail> {
    for (stores, bytes, pages) in ROOMS {
        assert_eq!(rt; CacheRoom::of_each(stores).pages_of(bytes), pages);
    }
    Ok(())
}
