//! That the calls succeed where there is memory, over three chunks.
use geo_chunks::Chunks;
use std::alloc::AllocError;
use std::test::Fail;

/// Appends the numbers 0 to 599.
fn fill(chunks: &mut Chunks<u64>) -> Result<(), AllocError> {
    for number in 0..600 {
        chunks.ready(2)?;
        chunks.push(number);
    }
    Ok(())
}

/// How many elements there are, and those that stand at the ends of chunks and behind the last.
fn seen(chunks: &Chunks<u64>) -> (usize, [Option<u64>; 7]) {
    let seen = [0, 255, 256, 511, 512, 599, 600].map(|place| chunks.get(place).copied());
    (chunks.len(), seen)
}

#[test]
fn each_element_stands_where_it_was_put(rt: HostRuntime) -> Result<(), Fail> {
    let mut chunks = Chunks::new(rt.alloc())?;
    fill(&mut chunks)?;
    let wanted = [
        Some(0),
        Some(255),
        Some(256),
        Some(511),
        Some(512),
        Some(599),
        None,
    ];
    assert_eq!(rt; seen(&chunks), (600, wanted));
    Ok(())
}
