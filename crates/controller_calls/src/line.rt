//! Where a call is answered.

/// Where a call is answered: the link, the number of the call and its context, and the most bytes of a fragment.
#[derive(Clone, Copy, Debug, PartialEq, Eq)]
pub struct Line {
    pub link: u32,
    pub call: u32,
    pub context: u16,
    pub limit: u16,
}
