//! One packet of a recording.

/// A packet, as a recording has it. It borrows its octets from who read it.
#[derive(Clone, Copy, Debug, PartialEq, Eq)]
pub struct Packet<'a> {
    /// Its number in the file: the first has 1.
    pub number: u64,
    /// When it passed: whole seconds since 1970.
    pub second: u32,
    /// The fraction of that second, in whole microseconds, cut: below 1,000,000. None where the
    /// file's number is a second or more.
    pub micro: Option<u32>,
    /// The type of the link that it was recorded on, by the numbers of the registry `LINKTYPE_`: 1
    /// is Ethernet.
    pub link_type: u16,
    /// The octets that were kept, from the first on.
    pub octets: &'a [u8],
    /// How many octets it had on the wire.
    pub wire_count: u32,
}
