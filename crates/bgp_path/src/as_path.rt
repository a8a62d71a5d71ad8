//! AS paths (RFC 4271, 4.3 b), and how AS_PATH and AS4_PATH become one path (RFC 6793, 4.2.3).

ghost use Rattle.std.specs.Prelude.{◌≡◌, ◌≤◌, ◌<◌, length, IfSome, IfOk, IsSome, ◌↔◌};
ghost use Rattle.bgp_path.specs.AsPath.{count_of, merge_of};

use crate::fit::numbers_are_fit;
use crate::numbers::Numbers;
use std::alloc::{AllocError, Allocator, Global};
use std::marker::Model;

/// The two kinds of path segment.
#[derive(Clone, Copy, Debug, PartialEq, Eq)]
pub enum SegmentKind {
    /// AS_SET, segment type 1.
    Set = 1,
    /// AS_SEQUENCE, segment type 2.
    Sequence = 2,
}

/// A path segment: 1 to 255 AS numbers, in the order in which they stand on the wire.
#[derive(Drop)]
#[derive_where(Debug)]
pub struct Segment<A: Allocator = Global> {
    kind: SegmentKind,
    numbers: Numbers<A>,
}

impl<A: Allocator> Model for Segment<A> {
    ghost use Rattle.std.specs.Prelude.{◌≤◌, length};
    ghost use Rattle.bgp_path.specs.AsPath.{PathSegment};

    ghost Value = { PathSegment };

    ghost view = { λ s. record { kind = s.kind; numbers = s.numbers } };

    ghost invariant = { λ s. (1 ≤ length s.numbers) × (length s.numbers ≤ 255) };
}

impl<A: Allocator> Segment<A> {
    ghost use Rattle.bgp_path.specs.AsPath.{IsPathSegment, weight};

    /// The segment of these numbers: none where there is no number, or more than 255.
    pub fn new(kind: SegmentKind, numbers: Vec<u32, A>) -> Option<Segment<A>>
        ensures some { IsSome result ↔ ((1 ≤ length numbers.items) × (length numbers.items ≤ 255)) }
        ensures value { IfSome result (λ s. s ≡ record { kind = kind; numbers = numbers.items }) }
    {
        Segment::of(kind, Numbers::from(numbers))
    }

    /// The same of `Numbers`.
    pub fn of(kind: SegmentKind, numbers: Numbers<A>) -> Option<Segment<A>>
        ensures some { IsSome result ↔ ((1 ≤ length numbers) × (length numbers ≤ 255)) }
        ensures value { IfSome result (λ s. s ≡ record { kind = kind; numbers = numbers }) }
    {
        let count = numbers.as_slice().len();
        if count < 1 || count > 255 {
            return None;
        }
        Some(Segment { kind, numbers })
    }

    /// Which kind it is.
    pub fn kind(&self) -> SegmentKind
        ensures kind { result ≡ self.now.kind }
    {
        self.kind
    }

    /// Its AS numbers: 1 to 255.
    pub fn numbers(&self) -> &[u32]
        ensures numbers { result.now ≡ self.now.numbers }
        ensures bounds { IsPathSegment self.now }
    {
        let numbers = self.numbers.as_slice();
        numbers_are_fit(numbers);
        numbers
    }

    /// How many AS numbers it counts: a set counts one (RFC 4271, 9.1.2.2 a).
    fn weight(&self) -> usize
        ensures weight { result ≡ weight self.now }
        ensures within { result ≤ length self.now.numbers }
        ensures bound { result ≤ 255 }
    {
        match self.kind {
            SegmentKind::Set => 1,
            SegmentKind::Sequence => self.numbers.as_slice().len(),
        }
    }
}

impl<A: Allocator + Copy> Segment<A> {
    ghost use Rattle.std.specs.Prelude.{◌≡◌, ◌≤◌, length, take, IfOk};

    /// The segment of its first `len` numbers.
    fn front(&self, alloc: A, len: usize) -> Result<Segment<A>, AllocError>
        requires some { 1 ≤ len }
        requires within { len ≤ length self.now.numbers }
        ensures front { IfOk result
            (λ s. s ≡ record { kind = self.now.kind; numbers = take len self.now.numbers }) }
    {
        let numbers = Numbers::from_slice(alloc, &self.numbers.as_slice()[..len])?;
        Ok(Segment {
            kind: self.kind,
            numbers,
        })
    }

    /// A copy that takes its memory from there.
    fn copied(&self, alloc: A) -> Result<Segment<A>, AllocError>
        ensures copy { IfOk result (λ copy. copy ≡ self.now) }
    {
        self.front(alloc, self.numbers.as_slice().len())
    }
}

impl<A: Allocator + Copy> Clone for Segment<A> {
    ghost is_clone = { λ s copy. copy ≡ s };

    fn clone(&self) -> Result<Segment<A>, AllocError> {
        let numbers = self.numbers.clone()?;
        Ok(Segment {
            kind: self.kind,
            numbers,
        })
    }
}

impl<A: Allocator> PartialEq for Segment<A> {
    ghost use Rattle.bgp_path.specs.Same.{same_segment};
    ghost use Rattle.bgp_path.specs.SameLaws.{same_segment_per};

    ghost eq = { same_segment };

    ghost laws = { same_segment_per };

    fn eq(&self, other: &Segment<A>) -> bool {
        self.kind == other.kind && self.numbers == other.numbers
    }
}

impl<A: Allocator> Eq for Segment<A> {
    ghost use Rattle.bgp_path.specs.SameLaws.{same_segment_equiv};

    ghost laws = { same_segment_equiv };
}

/// An AS path: its segments in order.
#[derive(Drop)]
#[derive_where(Debug)]
pub struct AsPath<A: Allocator = Global> {
    segments: Vec<Segment<A>, A>,
}

impl<A: Allocator> Model for AsPath<A> {
    ghost use Rattle.std.specs.Prelude.{List, All};
    ghost use Rattle.bgp_path.specs.AsPath.{PathSegment, IsPathSegment};

    ghost Value = { List PathSegment };

    ghost view = { λ p. p.segments.items };

    ghost invariant = { λ p. All IsPathSegment p.segments.items };
}

impl<A: Allocator> AsPath<A> {
    ghost use Rattle.std.specs.Prelude.{◌≡◌, ◌++◌, ◌∷◌, [], All, IfOk, OnOk, OnErr};
    ghost use Rattle.bgp_path.specs.AsPath.{IsPathSegment, count_of};

    /// The path without segments.
    pub fn new(alloc: A) -> AsPath<A>
        ensures empty { result ≡ [] }
    {
        AsPath {
            segments: Vec::new(alloc),
        }
    }

    /// The path without segments, with room for so many.
    pub fn with_capacity(alloc: A, segments: usize) -> Result<AsPath<A>, AllocError>
        ensures empty { IfOk result (λ path. path ≡ []) }
    {
        let segments = Vec::with_capacity(alloc, segments)?;
        Ok(AsPath { segments })
    }

    /// Appends a segment. It is `Err` only where memory is refused: then the path is as before, and
    /// the segment is dropped.
    pub fn push(&mut self, segment: Segment<A>) -> Result<(), AllocError>
        ensures ok { OnOk result (self.new ≡ self.old ++ segment ∷ []) }
        ensures err { OnErr result (self.new ≡ self.old) }
    {
        // It has 1 to 255 numbers, as each segment of a path has.
        let _ = segment.numbers();
        self.segments.push(segment)?;
        Ok(())
    }

    /// Its segments.
    pub fn segments(&self) -> &[Segment<A>]
        ensures segments { result.now ≡ self.now }
        ensures bounds { All IsPathSegment self.now }
    {
        self.segments.as_slice()
    }

    /// How many AS numbers it counts: each of a sequence counts one, and a set counts one
    /// (RFC 4271, 9.1.2.2 a).
    pub fn count(&self) -> u128
        ensures count { result ≡ count_of self.now }
    {
        count_of(&self.segments)
    }
}

impl<A: Allocator + Copy> AsPath<A> {
    ghost use Rattle.std.specs.Prelude.{◌≡◌, ◌++◌, IfOk, OnOk};
    ghost use Rattle.bgp_path.specs.AsPath.{leading_part};

    /// A copy that takes its memory from there.
    fn copied(&self, alloc: A) -> Result<AsPath<A>, AllocError>
        ensures copy { IfOk result (λ copy. copy ≡ self.now) }
    {
        let mut copy = AsPath::with_capacity(alloc, self.segments.len())?;
        copy.push_copies(alloc, &self.segments)?;
        Ok(copy)
    }

    /// Appends copies of these segments. After a refusal some of them stand there.
    fn push_copies(&mut self, alloc: A, segments: &[Segment<A>]) -> Result<(), AllocError>
        ensures ok { OnOk result (self.new ≡ self.old ++ segments.now) }
    {
        for segment in segments {
            self.push(segment.copied(alloc)?)?;
        }
        Ok(())
    }

    /// Appends the front of these segments that counts `count`. After a refusal a part of it stands
    /// there.
    fn push_leading(
        &mut self,
        alloc: A,
        segments: &[Segment<A>],
        count: u128,
    ) -> Result<(), AllocError>
        ensures leading { OnOk result (self.new ≡ self.old ++ leading_part segments.now count) }
    {
        let mut left = count;
        for segment in segments {
            if left == 0 {
                return Ok(());
            }
            let weight = segment.weight() as u128;
            if left < weight {
                // A sequence may be cut (RFC 6793, 4.2.3).
                return self.push(segment.front(alloc, left as usize)?);
            }
            self.push(segment.copied(alloc)?)?;
            left -= weight;
        }
        Ok(())
    }
}

impl<A: Allocator + Copy> Clone for AsPath<A> {
    ghost is_clone = { λ p copy. copy ≡ p };

    fn clone(&self) -> Result<AsPath<A>, AllocError> {
        self.copied(*self.segments.allocator())
    }
}

impl<A: Allocator> PartialEq for AsPath<A> {
    ghost use Rattle.bgp_path.specs.Same.{same_path};
    ghost use Rattle.bgp_path.specs.SameLaws.{same_path_per};

    ghost eq = { same_path };

    ghost laws = { same_path_per };

    fn eq(&self, other: &AsPath<A>) -> bool {
        self.segments == other.segments
    }
}

impl<A: Allocator> Eq for AsPath<A> {
    ghost use Rattle.bgp_path.specs.SameLaws.{same_path_equiv};

    ghost laws = { same_path_equiv };
}

/// The path that AS_PATH and AS4_PATH make together (RFC 6793, 4.2.3): AS_PATH alone where it
/// counts fewer AS numbers, else as much of its front as AS4_PATH lacks, and then AS4_PATH.
pub fn merge<A: Allocator + Copy>(
    alloc: A,
    path: &AsPath<A>,
    as4: &AsPath<A>,
) -> Result<AsPath<A>, AllocError>
    ensures merged { IfOk result (λ merged. merged ≡ merge_of path.now as4.now) }
{
    if path.count() < as4.count() {
        // An AS4_PATH that counts more is ignored (RFC 6793, 4.2.3).
        return path.copied(alloc);
    }
    let mut merged = AsPath::new(alloc);
    merged.push_leading(alloc, path.segments(), path.count() - as4.count())?;
    merged.push_copies(alloc, as4.segments())?;
    Ok(merged)
}

/// How many AS numbers these segments count.
fn count_of<A: Allocator>(segments: &[Segment<A>]) -> u128
    ensures count { result ≡ count_of segments.now }
{
    let mut count = 0;
    for segment in segments {
        count += segment.weight() as u128;
    }
    count
}
