//! What C sees of an object that a call finds.
ghost use Rattle.std.specs.Prelude.{◌≡◌, []};

/// A struct that was found. Its pointers are consecutive words of a segment.
#[repr(C)]
#[derive(Clone, Copy)]
pub struct FoundStruct<'a> {
    /// The bytes of the data section.
    pub data: &'a [u8],
    /// The segment of the pointers.
    pub segment: u64,
    /// Where the pointers start, in words.
    pub pointers_at: u32,
    /// The nesting limit for the pointers.
    pub nesting: i32,
    /// The number of pointers.
    pub pointers: u16,
}

/// A list that was found. Each element is data, then pointers.
#[repr(C)]
#[derive(Clone, Copy)]
pub struct FoundList<'a> {
    /// The words of the elements.
    pub data: &'a [u8],
    /// The segment of the elements.
    pub segment: u64,
    /// Where the elements start, in words.
    pub at: u32,
    /// The number of elements.
    pub count: u32,
    /// The number of bits of data of each element.
    pub data_bits: u32,
    /// The nesting limit for the pointers.
    pub nesting: i32,
    /// The number of pointers of each element.
    pub pointers: u16,
}

/// The bytes of a text or of data.
#[repr(C)]
#[derive(Clone, Copy)]
pub struct FoundBytes<'a> {
    /// The bytes, without the zero byte at the end of a text.
    pub bytes: &'a [u8],
}

/// The struct of a call that is refused: no data, no pointers.
#[inline(always)]
pub fn no_struct<'a>() -> FoundStruct<'a>
    ensures { (result.data.now ≡ []) × (result.pointers ≡ 0) }
{
    FoundStruct {
        data: &[],
        segment: 0,
        pointers_at: 0,
        nesting: 0,
        pointers: 0,
    }
}

/// The list of a call that is refused: no elements.
#[inline(always)]
pub fn no_list<'a>() -> FoundList<'a>
    ensures { (result.data.now ≡ []) × (result.count ≡ 0) }
{
    FoundList {
        data: &[],
        segment: 0,
        at: 0,
        count: 0,
        data_bits: 0,
        nesting: 0,
        pointers: 0,
    }
}
