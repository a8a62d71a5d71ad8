use arena::{Arena, Memory};
use std::alloc::AllocError;
use std::collections::BTreeMap;

/// A block in an arena.
type Block<'a> = Vec<u8, &'a Arena>;

/// A block with room for so many octets.
fn block_of(arena: &Arena, size: usize) -> Result<Block<'_>, AllocError> {
    Vec::with_capacity(arena, size)
}

/// Pushes the squares of 0 to 99, and inserts as many boxes of one number.
fn fill<'a>(
    arena: &'a Arena,
    squares: &mut Vec<u64, &'a Arena>,
    boxes: &mut BTreeMap<u64, Box<u64, &'a Arena>, &'a Arena>,
    boxed: u64,
) -> Result<(), AllocError> {
    for number in 0..100u64 {
        squares.push(number * number)?;
        boxes.insert(number, Box::new(arena, boxed)?)?;
    }
    Ok(())
}

/// Whether the squares of 0 to 99 and as many boxes of a number are served side by side.
fn serves_squares_and_boxes(arena: &Arena, boxed: u64) -> bool {
    let mut squares = Vec::new(arena);
    let mut boxes = BTreeMap::new(arena);
    fill(arena, &mut squares, &mut boxes, boxed).is_ok()
        && squares.first() == Some(&0)
        && squares.last() == Some(&9801)
        && boxes.len() == 100
        && matches!(boxes.get(&7), Some(it) if **it == boxed)
}

/// Whether they are served 20 times, each time anew.
fn serves_20_times(arena: &Arena) -> bool {
    let mut are_served = true;
    for round in 0..20u64 {
        are_served = are_served && serves_squares_and_boxes(arena, round);
    }
    are_served
}

/// Pushes 100 numbers of 128 bits.
fn push_wide(wide: &mut Vec<u128, &Arena>) -> Result<(), AllocError> {
    for number in 0..100u64 {
        wide.push(u128::from(number) << 100)?;
    }
    Ok(())
}

/// Whether these numbers are served.
fn serves_wide(arena: &Arena) -> bool {
    let mut wide = Vec::new(arena);
    push_wide(&mut wide).is_ok() && wide.get(99) == Some(&(99 << 100))
}

#[test]
fn serves_collections(rt: HostRuntime) {
    let memory = Memory::from_allocator(&rt.alloc(), 1 << 16).expect(&rt, "64 KiB");
    let arena = Arena::new(memory);
    assert!(rt; serves_20_times(&arena) && serves_wide(&arena));
}

/// A block of so many octets, each of which says the size.
fn filled(arena: &Arena, size: usize) -> Result<Block<'_>, AllocError> {
    let mut block = block_of(arena, size)?;
    block.resize(size, (size % 251) as u8)?;
    Ok(block)
}

/// Pushes such blocks, of 0 to 599 octets.
fn push_filled<'a>(
    arena: &'a Arena,
    blocks: &mut Vec<Block<'a>, &'a Arena>,
) -> Result<(), AllocError> {
    for size in 0..600usize {
        blocks.push(filled(arena, size)?)?;
    }
    Ok(())
}

/// Whether a block is as it was filled.
fn is_filled(block: &[u8], size: usize) -> bool {
    let mut is_filled = block.len() == size;
    for octet in block {
        is_filled = is_filled && usize::from(*octet) == size % 251;
    }
    is_filled
}

/// Whether blocks of 0 to 599 octets all stay as they were filled.
fn lie_apart(arena: &Arena) -> bool {
    let mut blocks = Vec::new(arena);
    let mut are_filled = push_filled(arena, &mut blocks).is_ok();
    for (size, block) in blocks.iter().enumerate() {
        are_filled = are_filled && is_filled(block, size);
    }
    are_filled
}

#[test]
fn blocks_of_every_size_lie_apart(rt: HostRuntime) {
    let memory = Memory::from_allocator(&rt.alloc(), 1 << 20).expect(&rt, "1 MiB");
    let arena = Arena::new(memory);
    assert!(rt; lie_apart(&arena));
}

/// Whether a block with room for so many octets is handed out, and is empty.
fn is_handed_out(arena: &Arena, size: usize) -> bool {
    match block_of(arena, size) {
        Ok(block) => block.is_empty(),
        Err(_) => false,
    }
}

// 1,000 blocks of 1,000 octets, one after another, in 8,000 octets.
#[test]
fn blocks_are_handed_out_again(rt: HostRuntime) {
    let memory = Memory::from_allocator(&rt.alloc(), 8000).expect(&rt, "8,000 octets");
    let arena = Arena::new(memory);
    for _ in 0..1000 {
        assert!(rt; is_handed_out(&arena, 1000));
    }
}

/// Pushes nine blocks of 100 octets.
fn push_nine<'a>(arena: &'a Arena, held: &mut Vec<Block<'a>>) -> Result<(), AllocError> {
    for _ in 0..9 {
        held.push(block_of(arena, 100)?)?;
    }
    Ok(())
}

/// Whether a block of so many octets is refused.
fn is_refused(arena: &Arena, size: usize) -> bool {
    block_of(arena, size).is_err()
}

/// Whether an arena refuses more blocks, and says so from the first one on.
fn is_used_up(arena: &Arena) -> bool {
    !arena.has_refused() && is_refused(arena, 100) && arena.has_refused() && is_refused(arena, 16)
}

/// Whether a block of so many octets is handed out, and held.
fn is_held<'a>(arena: &'a Arena, held: &mut Vec<Block<'a>>, size: usize) -> bool {
    match block_of(arena, size) {
        Ok(block) => held.push(block).is_ok(),
        Err(_) => false,
    }
}

/// Whether a block that comes back is handed out as one of 112 octets and then as one of 97, and as
/// none of another size.
fn is_handed_out_again<'a>(arena: &'a Arena, held: &mut Vec<Block<'a>>) -> bool {
    held.pop();
    let is_of_112 = is_refused(arena, 16) && is_held(arena, held, 112) && is_refused(arena, 97);
    held.pop();
    is_of_112 && is_held(arena, held, 97) && is_refused(arena, 100)
}

// A block of 100 octets takes 112, so 1,008 octets hold nine. Then only what comes back is handed
// out, to whoever asks for a block of that size.
#[test]
fn memory_is_used_up(rt: HostRuntime) {
    let memory = Memory::from_allocator(&rt.alloc(), 1008).expect(&rt, "1,008 octets");
    let arena = Arena::new(memory);
    let mut held = Vec::new(rt.alloc());
    assert!(rt;
        push_nine(&arena, &mut held).is_ok()
            && is_used_up(&arena)
            && is_handed_out_again(&arena, &mut held)
    );
}

/// Pushes the octets 0 to 249.
fn push_octets(octets: &mut Block<'_>) -> Result<(), AllocError> {
    for octet in 0..250u8 {
        octets.push(octet)?;
    }
    Ok(())
}

/// Whether these are the octets 0 to 249.
fn are_octets(octets: &[u8]) -> bool {
    octets.iter().copied().eq(0..250u8)
}

/// Whether an arena serves these octets.
fn serves_octets(arena: &Arena) -> bool {
    let mut octets = Vec::new(arena);
    push_octets(&mut octets).is_ok() && are_octets(&octets)
}

/// Whether an arena has no 8,192 octets for another, but 2,048 for one that serves.
fn serves_another(outer: &Arena) -> bool {
    let is_refused = Memory::from_allocator(outer, 8192).is_none();
    match Memory::from_allocator(outer, 2048) {
        Some(memory) => is_refused && serves_octets(&Arena::new(memory)),
        None => false,
    }
}

#[test]
fn an_arena_lies_in_another(rt: HostRuntime) {
    let memory = Memory::from_allocator(&rt.alloc(), 4096).expect(&rt, "4,096 octets");
    assert!(rt; serves_another(&Arena::new(memory)));
}
